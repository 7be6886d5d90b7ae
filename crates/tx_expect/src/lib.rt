//! What the tests of every crate use.
#![tactic(auto)]

ghost use Rattle.std.specs.Prelude.{◌↔◌, IsTrue};
ghost use Rattle.std.specs.Result.{IsOk};

use std::test::Fail;

/// Fails with what was expected, unless it is fine.
pub fn expect(fine: bool, what: &'static str) -> Result<(), Fail>
    ensures { IsTrue fine ↔ IsOk result }
{
    if fine { Ok(()) } else { Err(Fail::from(what)) }
}

/// The first line of a table that `answer` doesn't meet. Each line has ` => ` between what is given
/// and what is wanted of it; one without is not met.
pub fn first_unmet<F: Fn(&str) -> Result<String, Fail>>(
    table: &'static str,
    answer: F,
) -> Result<Option<&'static str>, Fail>
    requires { F.IsAlwaysCallable answer }
{
    for line in table.lines() {
        let Some((given, wanted)) = line.split_once(" => ") else {
            return Ok(Some(line));
        };
        let found = answer(given)?;
        if found.as_str() != wanted {
            return Ok(Some(line));
        }
    }
    Ok(None)
}

/// Fails with the first line of a table that `answer` doesn't meet, or where `answer` fails.
pub fn each_line<F: Fn(&str) -> Result<String, Fail>>(
    table: &'static str,
    answer: F,
) -> Result<(), Fail>
    requires { F.IsAlwaysCallable answer }
{
    match first_unmet(table, answer)? {
        Some(line) => Err(Fail::from(line)),
        None => Ok(()),
    }
}

#[cfg(test)]
mod tests;
