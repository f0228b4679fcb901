// A play told in print: what it came to, and where that is not what was due, that too.
use crate::desk::{Answer, Desk, Setting, play};
use dock_rules::Refusal;
use std::{fmt, io};

/// What a play came to, as it is printed.
#[derive(Clone, Copy, PartialEq, Eq)]
struct Told(Result<Answer, Refusal>);

impl fmt::Display for Told {
    fn fmt<W: fmt::Write>(&self, f: &mut fmt::Formatter<W>) -> fmt::Result {
        match self.0 {
            Ok(answer) => write!(f, "{answer}"),
            Err(why) => write!(f, "refused as {why}"),
        }
    }
}

/// Plays the calls on a dock set so, and tells what came of the last. Answers whether that is what was
/// due.
pub(crate) fn tell<F: FnOnce(&mut Desk<'_>) -> Result<Answer, Refusal>>(
    rt: &impl Print,
    tells: &str,
    setting: Setting,
    due: Result<Answer, Refusal>,
    calls: F,
) -> io::Result<bool>
    requires { F.IsAlwaysCallable calls }
{
    let came = Told(play(setting, calls));
    let due = Told(due);
    if came == due {
        println!(rt; "   {tells}: {came}")?;
    } else {
        println!(rt; "   {tells}: {came}, and should be {due}")?;
    }
    Ok(came == due)
}
