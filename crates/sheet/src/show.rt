// The text of an answer.
ghost use Rattle.std.specs.Prelude.{Some};
ghost use Rattle.sheet.specs.Texts.{figures_text, flown_text, answer_text, line_text};

use crate::answer::Answer;
use flight::reading::Reading;
use leg::flown::Flown;
use refusal::refusal::Refusal;
use std::fmt;

// Mass, fuel and the minimum-fuel mark. The type `Reading` is of another crate, and this text is the sheet's.
#[derive(Clone, Copy)]
struct Figures(Reading);

impl fmt::Display for Figures {
    ghost output = { λ v. Some (figures_text v.0) };

    fn fmt<W: fmt::Write>(&self, f: &mut fmt::Formatter<W>) -> fmt::Result {
        let Reading {
            mass,
            fuel,
            minimum,
        } = self.0;
        let minimum = u8::from(minimum);
        write!(f, "{mass} {fuel} {minimum}")
    }
}

// What a leg answers. The type `Flown` is of another crate, and this text is the sheet's.
#[derive(Clone, Copy)]
struct LegFigures(Flown);

impl fmt::Display for LegFigures {
    ghost output = { λ v. Some (flown_text v.0) };

    fn fmt<W: fmt::Write>(&self, f: &mut fmt::Formatter<W>) -> fmt::Result {
        let Flown {
            configuration,
            thrust,
            drag,
            flow,
            burn,
            limited,
        } = self.0;
        let limited = u8::from(limited);
        write!(f, "{configuration} {thrust} {drag} {flow} {burn} {limited}")
    }
}

impl<'a> fmt::Display for Answer<'a> {
    ghost output = { λ a. Some (answer_text a) };

    fn fmt<W: fmt::Write>(&self, f: &mut fmt::Formatter<W>) -> fmt::Result {
        match *self {
            Answer::Day(text) => write!(f, "{text}\n"),
            Answer::Start(reading) => write!(f, "start {}\n", Figures(reading)),
            Answer::Leg(flown, reading) => write!(
                f,
                "leg {} {}\n",
                LegFigures(flown),
                Figures(reading)
            ),
            Answer::Uplift(reading) => write!(f, "uplift {}\n", Figures(reading)),
            Answer::Jettison(reading) => write!(f, "jettison {}\n", Figures(reading)),
            Answer::Touchdown(reading) => write!(f, "touchdown {}\n", Figures(reading)),
        }
    }
}

// What is written to a line: the answer, or the number of the refusal.
#[derive(Clone, Copy)]
pub struct AnswerLine<'a>(pub Result<Answer<'a>, Refusal>);

impl<'a> fmt::Display for AnswerLine<'a> {
    ghost output = { λ v. Some (line_text v.0) };

    fn fmt<W: fmt::Write>(&self, f: &mut fmt::Formatter<W>) -> fmt::Result {
        match self.0 {
            Ok(answer) => write!(f, "{answer}"),
            Err(refusal) => write!(f, "no {refusal}\n"),
        }
    }
}
