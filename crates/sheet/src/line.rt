// What a script line does to a sheet.
ghost use Rattle.sheet.specs.Sheets.{Fresh, DayLine, asked, StartLine, CallLine, Takes};

use crate::answer::Answer;
use crate::calls::make;
use crate::form::Form;
use crate::forms::{form_of_text, text_of};
use crate::sheet::Sheet;
use air::bench::Bench;
use air::days::AnyDay;
use air::standard::Standard;
use aircraft::record::Aircraft;
use engine::any::AnyKind;
use flight::call::Call;
use flight::flight::Flight;
use flight::start::Start;
use refusal::refusal::Refusal;

impl Sheet {
    pub fn new(aircraft: Aircraft) -> Sheet
        ensures { Fresh aircraft result }
    {
        Sheet {
            aircraft,
            kind: AnyKind::from(&aircraft),
            day: None,
            flight: None,
        }
    }

    // A day in the place of the former; none after an accepted start.
    fn note<'a>(
        &mut self,
        day: Result<AnyDay, Refusal>,
        text: &'a str,
    ) -> Result<Answer<'a>, Refusal>
        ensures { DayLine text.now (asked day) self.old result self.new }
    {
        if self.flight.is_some() {
            return Err(Refusal::Script);
        }
        self.day = Some(day?);
        Ok(Answer::Day(text))
    }

    fn start<'a>(&mut self, start: Start) -> Result<Answer<'a>, Refusal>
        ensures { StartLine start self.old result self.new }
    {
        let day = self.day.ok_or(Refusal::Script)?;
        let flight = Flight::start(self.aircraft, self.kind, day, start)?;
        let reading = flight.reading();
        self.flight = Some(flight);
        Ok(Answer::Start(reading))
    }

    fn call<'a>(&mut self, call: Call) -> Result<Answer<'a>, Refusal>
        ensures { CallLine call self.old result self.new }
    {
        let flight = self.flight.as_mut().ok_or(Refusal::Script)?;
        make(flight, call)
    }

    // Takes a line, given without its end.
    pub fn line<'a>(&mut self, line: &'a [u8]) -> Result<Answer<'a>, Refusal>
        ensures { Takes line.now self.old result self.new }
    {
        let text = text_of(line).ok_or(Refusal::Script)?;
        match form_of_text(text).ok_or(Refusal::Script)? {
            Form::Bench { density, deviation } => {
                let day = Bench::new(density, deviation).map(AnyDay::Bench);
                self.note(day, text)
            }
            Form::Standard => self.note(Ok(AnyDay::Standard(Standard)), text),
            Form::Start(start) => self.start(start),
            Form::Call(call) => self.call(call),
        }
    }
}
