// The words of a trace line, and their numbers.
ghost use Rattle.std.specs.Prelude.{◌≡◌, ◌<◌, map, length, drop};
ghost use Rattle.record.specs.Table.{word_in};
ghost use Rattle.record.specs.Layout.{number_in, kind_of, order_of};

use event::Word;
use text::word::same_bytes;

// The bytes of a row of a table of words: the word's length, the word, and blanks. A word's number is its row; row 0 has none.
pub const ROW: usize = 8;

// The words of the kinds.
pub const KIND_WORDS: [[u8; ROW]; 12] = [
    *b"\x00       ",
    *b"\x04load   ",
    *b"\x05store  ",
    *b"\x05aload  ",
    *b"\x06astore ",
    *b"\x03rmw    ",
    *b"\x03add    ",
    *b"\x05fence  ",
    *b"\x04lock   ",
    *b"\x06unlock ",
    *b"\x05add64  ",
    *b"\x07cmpfail",
];

// The words of the orders and marks.
pub const ORDER_WORDS: [[u8; ROW]; 8] = [
    *b"\x00       ",
    *b"\x03rlx    ",
    *b"\x03acq    ",
    *b"\x03rel    ",
    *b"\x02ar     ",
    *b"\x02sc     ",
    *b"\x04used   ",
    *b"\x06unused ",
];

// The word of a row.
pub fn word_in(row: &[u8; ROW]) -> &[u8]
    ensures { result.now ≡ word_in row.now }
{
    let bytes = &row[..];
    let to = (bytes[0] % 8) as usize + 1;
    &bytes[1..to]
}

// The number of a word in a table; 0 for a word that is not in it.
#[tactic(auto, using(crate::proofs::Tables::row_hit, crate::proofs::Tables::row_miss, crate::proofs::Tables::row_none))]
fn number_in(table: &[[u8; ROW]], word: &[u8]) -> Word
    requires { length table.now < 256 }
    ensures { result ≡ number_in 1 (map word_in (drop 1 table.now)) word.now }
{
    for i in 1..table.len() {
        if same_bytes(word, word_in(&table[i])) {
            return i as Word;
        }
    }
    0
}

// The number of a kind's word; 0 for another word.
pub(crate) fn kind_of(word: &[u8]) -> Word
    ensures { result ≡ kind_of word.now }
{
    number_in(&KIND_WORDS, word)
}

// The number of an order's or a mark's word; 0 for another word.
pub(crate) fn order_of(word: &[u8]) -> Word
    ensures { result ≡ order_of word.now }
{
    number_in(&ORDER_WORDS, word)
}
