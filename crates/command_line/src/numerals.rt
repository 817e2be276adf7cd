// Numerals, and the numbers that they write.
ghost use Rattle.std.specs.Prelude.{◌≡◌, ◌≤◌, min};
ghost use Rattle.model.specs.Lists.{every};
ghost use Rattle.model.specs.Bytes.{is_digit, decimal};
ghost use Rattle.command_line.specs.Words.{is_numeral, said, number_said};

fn all_digits(word: &[u8]) -> bool
    ensures { result ≡ every is_digit word.now }
{
    word.iter().all(|b| b.is_ascii_digit())
}

// One or more digits with no leading zero, 0 itself excepted.
#[tactic(auto, unfolding(crate::specs::Words::is_numeral))]
pub fn is_numeral(word: &[u8]) -> bool
    ensures { result ≡ is_numeral word.now }
{
    !word.is_empty() && (word.len() == 1 || word[0] != b'0') && all_digits(word)
}

// The number that digits write, or `most` where it is more.
#[tactic(auto, using(crate::proofs::Counting::counted_more))]
fn value(word: &[u8], most: usize) -> usize
    requires { most ≤ 65535 }
    ensures { result ≡ min (decimal word.now) most }
{
    let mut n = 0;
    for b in word {
        n = (n * 10 + usize::from(b.saturating_sub(b'0'))).min(most);
    }
    n
}

// A number, or `most` where it is more: so large a number means no more than `most` does.
#[tactic(auto, unfolding(crate::specs::Words::said, crate::specs::Words::number_said))]
pub fn number_said(word: &[u8], most: usize) -> Option<usize>
    requires { most ≤ 65535 }
    ensures { said result ≡ number_said most word.now }
{
    is_numeral(word).then(|| value(word, most))
}
