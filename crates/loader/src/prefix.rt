ghost use Rattle.std.specs.Prelude.{◌≡◌, ℕ, ◌≤◌};
ghost use Rattle.loader.specs.Prefix.{longest_prefix, Decides};

/// The least number of bytes that decide the answer for every input, whatever follows them: the longest run of good
/// records (the first record, 32 tasks and 128 transfers), and the head and the longest payload of one more.
pub fn longest_prefix() -> usize
    ensures is { result ≡ longest_prefix }
    ensures decides { Decides longest_prefix }
    ensures least { (n : ℕ) → Decides n → longest_prefix ≤ n }
{
    8 + 32 * 6 + 128 * 10 + 4 + 65_535
}
