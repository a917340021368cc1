ghost use Rattle.std.specs.Prelude.{◌≡◌, ◌≢◌, ℕ, suc, ◌<◌, length, map, MatchBool, MatchResult, codes, string_bytes};
ghost use Rattle.planner.specs.declared.setting.Setting.{Setting};
ghost use Rattle.planner.specs.Options.{settings, name_of, set, Takes};
ghost use Rattle.planner.specs.Requests.{word_at, Sets, Asks, Alike};

use crate::options::Options;
use crate::setting::Setting;

/// What the words of a command line ask for.
#[derive(Clone, Copy, PartialEq, Eq, Debug)]
pub enum Request {
    /// The search of the run file on the input.
    Search(Options),
    /// How the program is called.
    Help,
    /// Nothing: a word is at fault.
    Bad(CallFault),
}

/// Which word of a command line is at fault, by its place; the program's name is at place 0.
#[derive(Clone, Copy, PartialEq, Eq, Debug)]
pub enum CallFault {
    /// The word is no option.
    NoOption(usize),
    /// The option is the last word, and has no value.
    NoValue(Setting),
    /// The word is no value of the option before it.
    BadValue(Setting, usize),
}

impl Request {
    /// What the words behind the program's name ask for: options, each with its value, of which the last of the same
    /// counts; or help, as soon as an option is due and it is asked for. The first word that is neither is at fault.
    pub fn of(words: &[String]) -> Request
        ensures asks { Asks (map string_bytes words.now) result }
        ensures one { (r : Request) → Asks (map string_bytes words.now) r → Alike r result }
    {
        let mut options = Options::usual();
        let mut place = 1;
        while place < words.len() {
            match one_more(options, words, place) {
                Ok(more) => options = more,
                Err(request) => return request,
            }
            place += 2;
        }
        Request::Search(options)
    }
}

/// The word at a place, and an empty one behind the last.
pub fn word(words: &[String], place: usize) -> &str
    ensures { result.now ≡ word_at (map string_bytes words.now) place }
{
    match words.get(place) {
        Some(word) => word.as_str(),
        None => "",
    }
}

// The word asks for help.
fn is_help(word: &str) -> bool
    ensures { MatchBool result (word.now ≡ codes "--help") (word.now ≢ codes "--help") }
{
    word == "--help"
}

// The settings with the option at a place; or what is asked for in place of a search.
fn one_more(options: Options, words: &[String], place: usize) -> Result<Options, Request>
    requires { place < length words.now }
    ensures { let ws = map string_bytes words.now in MatchResult result
        (λ o. (s : Setting) × (n : ℕ) × (suc place < length ws) × (word_at ws place ≡ name_of s)
        × Takes s (word_at ws (suc place)) n × (settings o ≡ set s n (settings options)))
        (λ r. (x : ℕ × ℕ) → Sets ws place x → Asks ws r) }
{
    let name = word(words, place);
    if is_help(name) {
        return Err(Request::Help);
    }
    let Some(setting) = Setting::named(name) else {
        return Err(Request::Bad(CallFault::NoOption(place)));
    };
    if place + 1 >= words.len() {
        return Err(Request::Bad(CallFault::NoValue(setting)));
    }
    match options.with(setting, word(words, place + 1)) {
        Some(more) => Ok(more),
        None => Err(Request::Bad(CallFault::BadValue(setting, place + 1))),
    }
}
