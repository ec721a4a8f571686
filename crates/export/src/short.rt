// A trace text shortened, and the same with a list of registers: two functions, since C calls both by name.
ghost use Rattle.registers.specs.Reading.{list_of};
ghost use Rattle.shorten.specs.Text.{shorten_in, short_out_in, matching_out_in, shorten_listed, short_out_listed, matching_out_listed};
ghost use Rattle.memory.specs.Listed.{none_listed};
ghost use Rattle.export.specs.Short.{Lays};

use event::Word;
use results::{ShortSaid, shortened_numbers};
use shorten::{shorten, shorten_listed};

// A trace text shortened: number, side, place, and how many bytes the shortened text and its matching have; and both texts.
#[unsafe(no_mangle)]
pub extern "C" fn laprunto_shorten(
    text: &[u8],
    out: &mut [u8],
    matching_out: &mut [u8],
    res: &mut [usize; 5],
)
    ensures { Lays (shorten_in none_listed text.now out.old matching_out.old)
        (short_out_in none_listed text.now out.old matching_out.old)
        (matching_out_in none_listed text.now out.old matching_out.old)
        res.new out.new matching_out.new }
{
    let shortened = shorten(text, out, matching_out);
    *res = shortened_numbers(ShortSaid::from(shortened));
}

// `laprunto_shorten` with a list.
#[unsafe(no_mangle)]
pub extern "C" fn laprunto_shorten_listed(
    list: &[u8],
    group: Word,
    text: &[u8],
    out: &mut [u8],
    matching_out: &mut [u8],
    res: &mut [usize; 5],
)
    ensures { Lays (shorten_listed (list_of group list.now) text.now out.old matching_out.old)
        (short_out_listed (list_of group list.now) text.now out.old matching_out.old)
        (matching_out_listed (list_of group list.now) text.now out.old matching_out.old)
        res.new out.new matching_out.new }
{
    let shortened = shorten_listed(list, group, text, out, matching_out);
    *res = shortened_numbers(ShortSaid::from(shortened));
}
