// The forms of a script line.
use flight::call::Call;
use flight::start::Start;

// A day, a start, or a call.
#[derive(Clone, Copy, PartialEq, Eq, Debug)]
pub enum Form {
    Bench { density: u64, deviation: i64 },
    Standard,
    Start(Start),
    Call(Call),
}
