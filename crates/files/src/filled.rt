// Bytes at the front of a room of a fixed size. Today's form would be a Vec, but the programs have no heap.
ghost use Rattle.std.specs.Prelude.{◌≡◌, ◌+◌, ◌≤◌, ◌++◌, List, ℕ, [], length, take};
ghost use Rattle.text.specs.Number.{decimal};
ghost use Rattle.files.specs.Lines.{pushed};

use crate::print::front;
use std::fmt;
use std::marker::Model;
use text::write::{DIGITS, put_number};

// What a room holds: bytes at its front, and how many they are.
#[derive(Drop)]
pub struct Filled<const N: usize> {
    room: [u8; N],
    len: usize,
}

// Clauses see the bytes that are held.
impl<const N: usize> Model for Filled<N> {
    ghost Value = { List ℕ };

    ghost view = { λ f. take f.len f.room };

    ghost invariant = { λ f. f.len ≤ N };
}

// The digits of a number, written where they stand: at the front of bytes that are enough for every number. What comes back is how many they are.
fn put_digits(out: &mut [u8], n: u64) -> usize
    requires { 20 ≤ length out.old }
    ensures size { result ≡ length (decimal n) }
    ensures digits { take result out.new ≡ decimal n }
{
    let Some(digits) = out.first_chunk_mut::<DIGITS>() else {
        return 0;
    };
    put_number(digits, n)
}

impl<const N: usize> Filled<N> {
    // A room that holds none of the bytes of an array. What makes a room is put in where it is called, or the bytes would be copied.
    #[inline(always)]
    pub fn over(room: [u8; N]) -> Self
        ensures { result ≡ [] }
    {
        Filled { room, len: 0 }
    }

    #[inline(always)]
    pub fn new() -> Self
        ensures { result ≡ [] }
    {
        Filled {
            room: [0; N],
            len: 0,
        }
    }

    pub fn as_slice(&self) -> &[u8]
        ensures value { result.now ≡ self.now }
        ensures within { length result.now ≤ N }
    {
        &self.room[..self.len]
    }

    // How many more fit.
    pub(crate) fn free(&self) -> usize
        ensures { result + length self.now ≡ N }
    {
        N - self.len
    }

    pub(crate) fn clear(&mut self)
        ensures { self.new ≡ [] }
    {
        self.len = 0;
    }

    // Bytes that fit, put behind those that are held. This and `push` are put in where they are called: how long a word of the code is, is known there, and
    // so no call copies it.
    #[inline(always)]
    fn put(&mut self, bytes: &[u8])
        requires { length self.old + length bytes.now ≤ N }
        ensures { self.new ≡ self.old ++ bytes.now }
    {
        let size = bytes.len();
        let room = &mut self.room[..];
        room[self.len..self.len + size].copy_from_slice(bytes);
        self.len += size;
    }

    // Bytes put behind those that are held, as many as fit.
    #[inline(always)]
    pub(crate) fn push(&mut self, bytes: &[u8])
        ensures { self.new ≡ pushed N self.old bytes.now }
    {
        let free = self.free();
        if bytes.len() <= free {
            self.put(bytes);
        } else {
            self.put(&bytes[..free]);
        }
    }

    // The digits of a number, likewise.
    #[tactic(auto, using(text::proofs::Decimals::length_wide))]
    pub(crate) fn push_number(&mut self, n: usize)
        ensures held { self.new ≡ pushed N self.old (decimal n) }
        ensures few { length (decimal n) ≤ 20 }
    {
        if self.free() < DIGITS {
            let mut digits: [u8; DIGITS] = [0; DIGITS];
            let size = put_digits(&mut digits, n as u64);
            self.push(front(&digits, size));
        } else {
            let room = &mut self.room[..];
            self.len += put_digits(&mut room[self.len..], n as u64);
        }
    }

    // Holds what is put at the front of the room, which is as long as is said.
    pub(crate) fn fill<F: FnOnce(&mut [u8]) -> usize>(&mut self, put: F)
        requires { F.IsAlwaysCallable put }
        ensures { length self.new ≤ N }
    {
        self.len = put(&mut self.room).min(N);
    }
}

impl<const N: usize> fmt::Write for Filled<N> {
    fn write_str(&mut self, s: &str) -> fmt::Result {
        self.push(s.as_bytes());
        Ok(())
    }
}
