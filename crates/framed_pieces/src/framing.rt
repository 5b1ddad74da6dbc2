ghost use Rattle.std.specs.Prelude.{◌≡◌, ◌≤◌, ◌++◌, ℕ, List, Option, Result, Ok, Some, None, length};

/// How messages stand one behind another.
pub trait Framing {
    /// What may be wrong at the front of octets.
    type Fault: Copy;

    /// The length of the message at the front of octets, None where more octets are needed to tell, or what is wrong there.
    ghost framed: { List ℕ → Result (Option ℕ) Self.Fault };

    fn frame(octets: &[u8]) -> Result<Option<u32>, Self::Fault>
        ensures { result ≡ framed octets.now };

    /// How many octets can be taken behind those of a message begun, none of which stands behind that message.
    fn wanted(begun: &[u8]) -> usize
        requires { framed begun.now ≡ Ok None }
        ensures some { 1 ≤ result }
        ensures part { (more : List ℕ) (size : ℕ) → length more ≤ result → framed (begun.now ++ more) ≡ Ok (Some size) → size ≡ length (begun.now ++ more) };
}
