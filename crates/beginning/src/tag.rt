// What a run holds of the events that it begins with.
ghost use Rattle.std.specs.Prelude.{◌≡◌, ◌≤◌, length};
ghost use Rattle.changes.specs.Apply.{front};
ghost use Rattle.beginning.specs.Start.{counted};

// The numbers of the source's events.
pub(crate) fn fill(tags: &mut [usize], events: usize)
    requires { events ≤ length tags.old }
    ensures { tags.new ≡ front (counted 0 events) tags.old }
{
    for (i, tag) in tags[..events].iter_mut().enumerate() {
        *tag = i;
    }
}
