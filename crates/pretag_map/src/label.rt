ghost use Rattle.std.specs.Prelude.{◌≡◌, List, ℕ, true};
ghost use Rattle.std.specs.List.{list_all};
ghost use Rattle.acct_types.specs.Cells.{are_plain};
ghost use Rattle.pretag_map.specs.Labels.{is_label, is_label_character};

/// The most characters that a label has.
const LONGEST: usize = 64;

/// Whether the words are a label: 1 to 64 printable characters without space, comma, quote, `=` and backslash.
#[tactic(auto, unfolding(crate::specs::Labels::is_label))]
pub fn is_label(words: &[u8]) -> bool
    ensures { result ≡ is_label words.now }
{
    !words.is_empty() && words.len() <= LONGEST && are_label_characters(words)
}

fn are_label_characters(words: &[u8]) -> bool
    ensures { result ≡ list_all is_label_character words.now }
{
    words.iter().all(|c| is_label_character(*c))
}

fn is_label_character(c: u8) -> bool
    ensures { result ≡ is_label_character c }
{
    c > b' ' && c < 127 && c != b',' && c != b'"' && c != b'=' && c != b'\\'
}

/// A law: a label is plain words, so a key can have it.
#[tactic(auto, using(crate::proofs::LabelLemmas::plain_label))]
pub fn labels_are_plain()
    ensures { (words : List ℕ) → is_label words ≡ true → are_plain words ≡ true }
{}
