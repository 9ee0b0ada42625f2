//! Numbers, calls and refusals, as a row spells them, and how a refusal is answered.
use seq_model::Refusal;
use std::alloc::AllocError;
use std::fmt::Write;
use text_formats::number;

/// The number that a token spells.
pub fn number_in(token: &str) -> Result<u64, Refusal> {
    match number(token) {
        Some(number) => Ok(number),
        None => Err(Refusal::NoSuch),
    }
}

/// A location, an actor, or a number of stripes.
pub fn location(number: u64) -> Result<u32, Refusal> {
    match u32::try_from(number) {
        Ok(location) => Ok(location),
        Err(_) => Err(Refusal::TooLong),
    }
}

/// The location that a token spells.
pub fn location_in(token: &str) -> Result<u32, Refusal> {
    location(number_in(token)?)
}

/// What stands before the mark, and what after it.
pub fn split<'a>(row: &'a str, mark: &str) -> Result<(&'a str, &'a str), Refusal> {
    match row.split_once(mark) {
        Some(parts) => Ok(parts),
        None => Err(Refusal::NoSuch),
    }
}

/// A name with three numbers.
#[derive(Clone, Copy)]
pub struct Call<'a> {
    pub name: &'a str,
    pub at: u64,
    pub value: u64,
    pub other: u64,
}

/// The call that a text spells: a name, and then up to three numbers, of which those that are left out are 0.
pub fn call_of(text: &str) -> Result<Call<'_>, Refusal> {
    let (name, numbers) = text.split_once(' ').unwrap_or((text, "0"));
    let (at, numbers) = numbers.split_once(' ').unwrap_or((numbers, "0"));
    let (value, other) = numbers.split_once(' ').unwrap_or((numbers, "0"));
    Ok(Call {
        name,
        at: number_in(at)?,
        value: number_in(value)?,
        other: number_in(other)?,
    })
}

/// The refusal of this name, with or without capitals.
pub fn refusal_of(call: Call<'_>) -> Result<Refusal, Refusal> {
    let (location, number, word) = (location(call.at)?, call.at, call.value);
    match call.name {
        "moved" | "Moved" => Ok(Refusal::Moved { location, word }),
        "busy" | "Busy" => Ok(Refusal::Busy { location, word }),
        "stale" | "Stale" => Ok(Refusal::Stale {
            location,
            base_edition: word,
            word_edition: call.other,
        }),
        "gate_busy" | "GateBusy" => Ok(Refusal::GateBusy {
            collection: location,
        }),
        "invalid" | "Invalid" => Ok(Refusal::Invalid { location, word }),
        "memory" | "Memory" => Ok(Refusal::Memory),
        "exhausted" | "Exhausted" => Ok(Refusal::Exhausted { clock: number }),
        "no_such" | "NoSuch" => Ok(Refusal::NoSuch),
        "too_long" | "TooLong" => Ok(Refusal::TooLong),
        "ahead" => Ok(Refusal::Ahead { clock: number }),
        "not_idle" | "NotIdle" => Ok(Refusal::NotIdle),
        "no_transaction" | "NoTransaction" => Ok(Refusal::NoTransaction),
        "bad_text" => Ok(Refusal::BadText { line: number }),
        _ => Err(Refusal::NoSuch),
    }
}

/// Prints a refusal between these two, but for that of memory, which is the whole run's.
pub fn tell_refusal(
    text: &mut String,
    before: &str,
    answered: Result<(), Refusal>,
    after: &str,
) -> Result<(), AllocError> {
    match answered {
        Ok(()) => Ok(()),
        Err(Refusal::Memory) => Err(AllocError),
        Err(refusal) => write!(text, "{before}{refusal}{after}"),
    }
}
