// Words: bytes that are compared whole.
ghost use Rattle.std.specs.Prelude.{◌≡◌};
ghost use Rattle.text.specs.Word.{same_bytes};

// Whether two words are the same. Byte by byte: with `==` of slices, which compares them by a call, the reading of lines took a quarter more (docs/DESIGN-PASS.md).
#[tactic(auto, using(crate::proofs::Words::same_len, crate::proofs::Words::same_end, crate::proofs::Words::same_go, crate::proofs::Words::same_no))]
pub fn same_bytes(a: &[u8], b: &[u8]) -> bool
    ensures { result ≡ same_bytes a.now b.now }
{
    if a.len() != b.len() {
        return false;
    }
    for i in 0..a.len() {
        if a[i] != b[i] {
            return false;
        }
    }
    true
}
