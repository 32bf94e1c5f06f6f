//! The one form of the words.

ghost use Rattle.std.specs.Prelude.{◌≡◌, ◌↔◌, ◌<◌, ℕ, List, map, string_bytes, IsTrue, length};
ghost use Rattle.program_words.specs.Words.{IsName, AreNames, ReadsWords};

/// What the words name. There is a script at least, and no name is empty or begins with a dash.
#[derive(Clone, Copy)]
pub struct StepWords<'a> {
    pub database: &'a str,
    pub plan: &'a str,
    pub scripts: &'a [String],
}

fn is_name(word: &[u8]) -> bool
    ensures { IsTrue result ↔ IsName word.now }
{
    match word.first() {
        None => false,
        Some(b) => *b != b'-',
    }
}

fn is_same(a: &[u8], b: &[u8]) -> bool
    ensures { IsTrue result ↔ (a.now ≡ b.now) }
{
    a == b
}

/// Whether each word is a name.
fn are_names(words: &[String]) -> bool
    ensures { IsTrue result ↔ AreNames (map string_bytes words.now) }
{
    for word in words {
        if !is_name(word.as_bytes()) {
            return false;
        }
    }
    true
}

/// Reads the words behind the program's name; None exactly where they aren't of the form.
pub fn read_words(words: &[String]) -> Option<StepWords<'_>>
    ensures { ReadsWords (map string_bytes words.now) result }
{
    let [step, database, plan, scripts @ ..] = words else {
        return None;
    };
    if is_same(step.as_bytes(), b"step")
        && is_name(database.as_bytes())
        && is_name(plan.as_bytes())
        && !scripts.is_empty()
        && are_names(scripts)
    {
        Some(StepWords {
            database: database.as_str(),
            plan: plan.as_str(),
            scripts,
        })
    } else {
        None
    }
}
