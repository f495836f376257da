// Refusals as their reader sees them.
ghost use Rattle.std.specs.Prelude.{◌≡◌, ℕ};

// A refusal has a number in the list of refusals, and a line of a text, from 1; the line is 0 where it lies in none, as the frame
// of a refusal has it.
pub trait Numbered {
    ghost number: { Self → ℕ };

    ghost line: { Self → ℕ };

    // The number of the refusal.
    fn number(&self) -> u8
        ensures { result ≡ number self.now };

    // The line of the refusal.
    fn line(&self) -> u32
        ensures { result ≡ line self.now };
}

// A number and a line, as they are.
impl Numbered for (u8, u32) {
    ghost number = { λ refusal. refusal.0 };

    ghost line = { λ refusal. refusal.1 };

    fn number(&self) -> u8 {
        self.0
    }

    fn line(&self) -> u32 {
        self.1
    }
}
