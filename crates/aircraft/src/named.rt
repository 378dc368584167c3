// The words of engines and configurations, and the row of a configuration.
ghost use Rattle.std.specs.Prelude.{◌≡◌, ℕ, ◌<◌, List, Some};
ghost use Rattle.aircraft.specs.Words.{engine_word, configuration_word, configuration_row, first_named, engine_named, configuration_named, known, engine_type};

use crate::record::Engine;
use crate::words::{Configuration, EngineType, UnknownWord};
use std::fmt;

// A kind that files name by a word.
trait Worded: Copy {
    ghost own_word: { Self → List ℕ };

    fn word(self) -> &'static str
        ensures { result.now ≡ own_word self };
}

// The first of some kinds that a word names. A `for`: a `find` over words that a bound gives was tried, and did not prove.
fn named<K: Worded>(kinds: &[K], word: &[u8]) -> Result<K, UnknownWord>
    ensures { result ≡ known (first_named K.own_word kinds.now word.now) }
{
    for kind in kinds {
        if word == kind.word().as_bytes() {
            return Ok(*kind);
        }
    }
    Err(UnknownWord)
}

impl Worded for EngineType {
    ghost own_word = { engine_word };

    fn word(self) -> &'static str {
        match self {
            EngineType::Jet => "Jet",
            EngineType::Turboprop => "Turboprop",
        }
    }
}

impl TryFrom<&[u8]> for EngineType {
    type Error = UnknownWord;

    ghost try_from_gives = { λ word r. r ≡ known (engine_named word.now) };

    fn try_from(word: &[u8]) -> Result<EngineType, UnknownWord> {
        named(&[EngineType::Jet, EngineType::Turboprop], word)
    }
}

impl fmt::Display for EngineType {
    ghost output = { λ e. Some (engine_word e) };

    fn fmt<W: fmt::Write>(&self, f: &mut fmt::Formatter<W>) -> fmt::Result {
        f.write_str(self.word())
    }
}

impl From<&Engine> for EngineType {
    ghost from_gives = { λ e t. t ≡ engine_type e.now };

    fn from(engine: &Engine) -> EngineType {
        match engine {
            Engine::Jet(_) => EngineType::Jet,
            Engine::Turboprop(_) => EngineType::Turboprop,
        }
    }
}

const CONFIGURATIONS: [Configuration; 5] = [
    Configuration::Cruise,
    Configuration::InitialClimb,
    Configuration::TakeOff,
    Configuration::Approach,
    Configuration::Landing,
];

impl Worded for Configuration {
    ghost own_word = { configuration_word };

    fn word(self) -> &'static str {
        match self {
            Configuration::Cruise => "CR",
            Configuration::InitialClimb => "IC",
            Configuration::TakeOff => "TO",
            Configuration::Approach => "AP",
            Configuration::Landing => "LD",
        }
    }
}

impl TryFrom<&[u8]> for Configuration {
    type Error = UnknownWord;

    ghost try_from_gives = { λ word r. r ≡ known (configuration_named word.now) };

    fn try_from(word: &[u8]) -> Result<Configuration, UnknownWord> {
        named(&CONFIGURATIONS, word)
    }
}

impl Configuration {
    // Its place among the five rows, from 0. A method, since a From has no clause for the bound by which rows are indexed.
    pub fn row(self) -> usize
        ensures place { result ≡ configuration_row self }
        ensures within { result < 5 }
    {
        self as usize
    }
}

impl fmt::Display for Configuration {
    ghost output = { λ c. Some (configuration_word c) };

    fn fmt<W: fmt::Write>(&self, f: &mut fmt::Formatter<W>) -> fmt::Result {
        let word = self.word();
        f.write_str(word)
    }
}
