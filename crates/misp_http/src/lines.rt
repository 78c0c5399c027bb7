//! Where a head may end.

ghost use Rattle.std.specs.Prelude.{◌≡◌, ◌||◌, ◌∷◌, ℕ, List};
ghost use Rattle.misp_http.specs.Lines.{ends_head};

/// How the lines of a head go on, byte by byte.
#[derive(Drop)]
pub struct LineScanner {
    // How many bytes were scanned.
    pub scanned: usize,
    // Whether a line that is not empty was begun.
    pub begun: bool,
    // Whether the line so far is empty.
    pub empty: bool,
}

impl LineScanner {
    /// Scans the bytes after those that were scanned. Says whether an empty line ended there,
    /// after some line that was not empty; no head ends elsewhere.
    pub fn scan_on(&mut self, bytes: &[u8]) -> bool
        ensures first { self.old.scanned ≡ 0
            → result ≡ ends_head self.old.begun self.old.empty bytes.now }
    {
        let from = self.scanned.min(bytes.len());
        self.scanned = bytes.len();
        self.scan(&bytes[from..])
    }

    fn scan(&mut self, bytes: &[u8]) -> bool
        ensures { result ≡ ends_head self.old.begun self.old.empty bytes.now }
    {
        let mut ended = false;
        for byte in bytes {
            let here = self.scan_byte(*byte);

            // `|` has no branch, so the proof has one path.
            ended = ended | here;
        }
        ended
    }

    #[tactic(auto, unfolding(crate::specs::Lines::ends_head))]
    fn scan_byte(&mut self, byte: u8) -> bool
        ensures { (rest : List ℕ) → ends_head self.old.begun self.old.empty (byte ∷ rest)
            ≡ (result || ends_head self.new.begun self.new.empty rest) }
    {
        if byte == b'\n' {
            let ended = self.begun && self.empty;
            self.empty = true;
            return ended;
        }
        if byte != b'\r' {
            self.begun = true;
            self.empty = false;
        }
        false
    }
}
