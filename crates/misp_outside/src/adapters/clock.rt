//! The clock of the system.

ghost use Rattle.std.specs.Prelude.{◌≡◌, ◌≤◌, ◌<◌, ◌+◌, ◌*◌, None, IfOk, IsOk, OnOk, take, drop};
ghost use Rattle.std.specs.Int.{w128, from_be_bytes};
ghost use Rattle.misp_outside.specs.declared.adapters.clock.TheConstants.{WORDS};

use crate::Clock;
use misp_ids::LAST_SECOND;
use std::io;
use std::random::RandomSource;
use std::time::SystemTime;

/// How many words are had from the system at a time.
const WORDS: usize = 16;

/// The clock of the system, which tells neither its time nor its words. Its time is 0 where the
/// system has none. Its words are random bytes of the system, each given out once. Where there are
/// none, a word is made of the time and a running number.
#[derive(Drop)]
pub struct SystemClock<'a> {
    system: &'a HostRuntime,
    random: [u8; 16 * WORDS],
    left: usize,
    counted: u32,
    ghost in_range: { left ≤ WORDS },
}

impl<'a> SystemClock<'a> {
    ghost use Rattle.misp_outside.specs.System.{random_word, words_left, words_to_give};

    pub fn new(system: &'a HostRuntime) -> Self {
        SystemClock {
            system,
            random: [0; 16 * WORDS],
            left: 0,
            counted: 0,
        }
    }

    fn seconds(&self) -> u64 {
        let Ok(now) = SystemTime::now(self.system) else {
            return 0;
        };
        match now.duration_since(SystemTime::UNIX_EPOCH) {
            Ok(since) => since.as_secs(),
            Err(_) => 0,
        }
    }

    // Has more random bytes from the system where none are left.
    fn refill(&mut self) -> io::Result<()>
        ensures left { OnOk result (words_left self.new ≡ words_to_give (words_left self.old)) }
        ensures kept { 0 < words_left self.old → self.new ≡ self.old }
        ensures some { 0 < words_left self.old → IsOk result }
    {
        if self.left == 0 {
            self.system.fill_bytes(&mut self.random)?;
            self.left = WORDS;
        }
        Ok(())
    }

    // The last of the words that are left, which is used up.
    fn random(&mut self) -> io::Result<u128>
        ensures word { IfOk result (λ word. word ≡ random_word self.new (words_left self.new)) }
        ensures left { IfOk result
            (λ _. words_left self.new + 1 ≡ words_to_give (words_left self.old)) }
        ensures kept { 0 < words_left self.old → self.new.random ≡ self.old.random }
        ensures some { 0 < words_left self.old → IsOk result }
    {
        self.refill()?;
        self.left -= 1;
        Ok(word_at(&self.random, self.left))
    }

    // The seconds and a running number of 30 bits, in bits that an identifier keeps.
    fn counted(&mut self) -> u128 {
        self.counted = self.counted.wrapping_add(1);
        let number = u128::from(self.counted % 0x4000_0000);
        u128::from(self.seconds()) << 80 | number << 32
    }
}

// The word at a place of those that were had from the system.
fn word_at(words: &[u8; 16 * WORDS], place: usize) -> u128
    requires { place < WORDS }
    ensures { result ≡ from_be_bytes w128 (take 16 (drop (16 * place) words.now)) }
{
    let at = 16 * place;
    let mut bytes = [0u8; 16];
    bytes.copy_from_slice(&words[at..at + 16]);
    u128::from_be_bytes(bytes)
}

impl<'a> Clock for SystemClock<'a> {
    ghost use Rattle.misp_outside.specs.System.{random_word, words_left};

    ghost time = { λ _. None };

    ghost next_word = { λ _. None };

    fn now(&mut self) -> u64 {
        self.seconds().min(LAST_SECOND)
    }

    fn word(&mut self) -> u128
        ensures left { 0 < words_left self.old → words_left self.new + 1 ≡ words_left self.old }
        ensures given { 0 < words_left self.old
            → result ≡ random_word self.old (words_left self.new) }
    {
        match self.random() {
            Ok(word) => word,
            Err(_) => self.counted(),
        }
    }
}
