//! What is printed of a table's rows, and the receipts so far.
use super::answers::{Answer, print_block, print_receipt};
use super::ends::{audit_receipts, print_closed};
use super::meeting::Meeting;
use super::told::Told;
use seq_model::{Memory, Record, Refusal, State};
use std::alloc::Global;
use std::fmt::Write;

/// There is room for so many receipts of one table before it opens.
const ROOM: usize = 96;

/// What is printed of a table's rows, and the receipts so far. `Memory`, or another fault, is kept to the end, so that the rows
/// continue after it.
#[derive(Drop)]
pub struct Page<V> {
    pub text: String,
    pub receipts: Vec<Record<V>>,
    fault: Option<Refusal>,
}

impl<V: Told> Page<V> {
    pub fn new(alloc: Global) -> Result<Page<V>, Memory> {
        let receipts = Vec::with_capacity(alloc, ROOM)?;
        Ok(Page {
            text: String::new(alloc),
            receipts,
            fault: None,
        })
    }

    pub fn alloc(&self) -> Global {
        *self.text.allocator()
    }

    /// Whether an allocation failed, and nothing worse has happened.
    pub fn wants_memory(&self) -> bool {
        matches!(self.fault, Some(Refusal::Memory))
    }

    /// The run of this table fails. `Memory` comes after any other fault.
    pub fn fail(&mut self, refusal: Refusal) {
        if self.fault.is_none() || !matches!(refusal, Refusal::Memory) {
            self.fault = Some(refusal);
        }
    }

    /// What could not be printed or kept is `Memory`.
    pub fn note(&mut self, is_heard: bool) {
        if !is_heard {
            self.fail(Refusal::Memory);
        }
    }

    pub fn print(&mut self, told: &str) {
        let is_printed = self.text.push_str(told).is_ok();
        self.note(is_printed);
    }

    /// What is answered from now on is the answer of this row.
    pub fn begin_row(&mut self, row: &str) {
        self.print(row);
        self.print(" = ");
    }

    pub fn end_row(&mut self) {
        self.print("\n");
    }

    /// An answer of a row is printed, after those before; a receipt joins the others. A refusal is printed, but for `Memory`.
    pub fn hear(&mut self, answered: Result<Answer<V>, Refusal>) {
        if !self.text.as_str().ends_with("= ") {
            self.print("; ");
        }
        let is_heard = match answered {
            Ok(Answer::Begun(number)) => write!(self.text, "begun {number}").is_ok(),
            Ok(Answer::Replied(reply)) => V::print_reply(&mut self.text, &reply).is_ok(),
            Ok(Answer::Committed(receipt)) => {
                let is_printed = print_receipt(&mut self.text, &receipt).is_ok();
                self.receipts.push(receipt).is_ok() && is_printed
            }
            Ok(Answer::Number(number)) => write!(self.text, "{number}").is_ok(),
            Ok(Answer::Stored(block)) => print_block(&mut self.text, block).is_ok(),
            Ok(Answer::Said(told)) => self.text.push_str(told).is_ok(),
            Err(Refusal::Memory) => false,
            Err(refusal) => write!(self.text, "{refusal}").is_ok(),
        };
        self.note(is_heard);
    }

    /// Where an allocation failed, those who meet are held in vain.
    pub fn hear_meeting(&mut self, meeting: Meeting) {
        if meeting.is_missed() && !self.wants_memory() {
            self.fail(Refusal::NotIdle);
        }
    }

    /// Another page is put after this one.
    pub fn append(&mut self, other: Page<V>) {
        let Page {
            text,
            mut receipts,
            fault,
        } = other;
        self.print(text.as_str());
        let is_kept = self.receipts.append(&mut receipts).is_ok();
        self.note(is_kept);
        if let Some(refusal) = fault {
            self.fail(refusal);
        }
    }

    /// What a table that was closed held, audited, and all that was printed of it, which joins the text. Else it is refused as the page has
    /// failed, and `NotIdle` where the receipts do not leave what the table held.
    pub fn end(
        &mut self,
        text: &mut String,
        opening: &State<V>,
        clock: Option<u64>,
        last: &mut State<V>,
        rows: &str,
    ) -> Result<(), Refusal> {
        let audited = audit_receipts(self.alloc(), opening, self.receipts.as_slice(), last);
        match clock {
            Some(clock) => {
                let is_printed = writeln!(self.text, "closed: clock {clock}, audit ok").is_ok();
                self.note(is_printed);
            }
            None => self.print("closed: audit ok\n"),
        }
        print_closed(self, last, rows);
        audited?;
        if let Some(refusal) = self.fault {
            return Err(refusal);
        }
        text.push_str(self.text.as_str())?;
        Ok(())
    }
}
