//! The records of a source, one by one.

ghost use Rattle.std.specs.Prelude.{◌≡◌, ◌≢◌, ◌++◌, ◌+◌, ◌≤◌, [], List, ℕ, true, IfOk, OnOk};
ghost use Rattle.std.specs.Io.KnownBytes.{prepend_known};
ghost use Rattle.edge_io.specs.Causes.{Rose};
ghost use Rattle.mrt_reader.specs.Records.{AreBytes};
ghost use Rattle.mrt_reader.specs.Lines.{refused_text};
ghost use Rattle.mrt_reader.specs.Kept.{IsKeptOf};
ghost use Rattle.mrt_reader.specs.Sessions.{nothing_written};
ghost use Rattle.mrt_reader.specs.Files.{HasRead};
ghost use Rattle.mrt_reader.specs.Sources.{AreTaken, Gives, ReadsNone, holds_record};

use crate::answer::{Code, Next, Stop};
use crate::bodies::read_body;
use crate::fields::{Body, HEADER, Header, read_header};
use crate::lines::push_refused;
use crate::sessions::Written;
use crate::unread::Unread;
use edge_io::Source;
use std::alloc::Global;
use std::marker::Model;

/// So many records may a file have.
const MOST_RECORDS: u32 = 1_000_000_000;

/// Reads the records of one source, and gives their lines.
#[derive(Drop)]
pub struct Reader {
    /// Which subtypes are of use: those with AS numbers of four octets, or of two.
    as4: bool,
    /// How many records were read.
    number: u32,
    written: Written,
    unread: Unread,
    /// The header of the record that was read last.
    head: Vec<u8>,
    /// What is kept of its body.
    body: Vec<u8>,
}

impl Model for Reader {
    ghost use Rattle.std.specs.Prelude.{◌≤◌};
    ghost use Rattle.mrt_reader.specs.Sources.{Reading};

    ghost Value = { Reading };

    ghost view = { λ r. record { as4 = r.as4; number = r.number; written = r.written; unread = r.unread } };

    ghost invariant = { λ r. r.number ≤ 1000000000 };
}

impl Reader {
    /// Nothing was read. Takes no memory. With `as4` the records of use are those whose AS numbers have four octets.
    pub fn new(alloc: Global, as4: bool) -> Reader
        ensures nothing { result ≡ record { as4 = as4; number = 0; written = nothing_written; unread = [] } }
        ensures begun { HasRead as4 [] [] result.number result.written }
    {
        Reader {
            as4,
            number: 0,
            written: Written::new(alloc),
            unread: Unread::new(alloc),
            head: Vec::new(alloc),
            body: Vec::new(alloc),
        }
    }

    /// Whether a whole record was read that wasn't given yet: then the next one is given without a read.
    pub fn holds_record(&self) -> bool
        ensures { result ≡ holds_record self.now.unread }
    {
        self.unread.holds_record()
    }

    /// Reads the next record, and puts the text of its lines into `out`, in place of what is there; at the end the last line,
    /// and where the file is refused the line that says so. After a refusal or a [`Stop`] nothing more is to be asked.
    pub fn next<S: Source>(&mut self, source: &mut S, out: &mut Vec<u8>) -> Result<Next, Stop>
        ensures gives { IfOk result (λ next. Gives self.old (S.left source.old) next out.new.items self.new (S.left source.new)) }
        ensures read_fault { result ≡ Err Stop.ReadFault → ReadsNone self.old (S.left source.old) self.new (S.left source.new) }
        ensures cause { result ≡ Err Stop.ReadFault → Rose (S.faults source.old) (S.faults source.new) }
        ensures later { S.faults source.old ≤ S.faults source.new }
    {
        out.clear();
        self.head.clear();
        let whole = self.unread.take(source, HEADER, &mut self.head)?;
        if self.head.is_empty() {
            self.written.close(out)?;
            return Ok(Next::End);
        }
        if self.number >= MOST_RECORDS {
            return refuse(out, self.number, Code::M3);
        }
        if !whole {
            return refuse(out, self.number, Code::M1);
        }
        let header = read_header(self.head.as_slice());
        if !take_body(&mut self.unread, source, self.as4, header, &mut self.body)? {
            return refuse(out, self.number, Code::M1);
        }
        let body = read_body(self.as4, header, self.body.as_slice());
        if let Body::Malformed = body {
            return refuse(out, self.number, Code::M2);
        }
        self.written
            .take(self.as4, body, self.body.as_slice(), out)?;
        self.number += 1;
        Ok(Next::Record)
    }
}

/// Takes a body, and keeps what may be of use of it. Answers whether the input has all of it.
fn take_body<S: Source>(
    unread: &mut Unread,
    source: &mut S,
    as4: bool,
    header: Header,
    body: &mut Vec<u8>,
) -> Result<bool, Stop>
    ensures taken { (octets : List ℕ) × AreTaken (prepend_known unread.old (S.left source.old)) (prepend_known unread.new (S.left source.new)) header.length result octets × AreBytes octets × (result ≡ Ok true → IsKeptOf as4 header body.new.items octets) }
    ensures drained { result ≡ Err Stop.ReadFault → unread.new ≡ [] }
    ensures cause { result ≡ Err Stop.ReadFault → Rose (S.faults source.old) (S.faults source.new) }
    ensures later { S.faults source.old ≤ S.faults source.new }
{
    body.clear();
    let kept = header.kept(as4);
    if !unread.take(source, kept, body)? {
        return Ok(false);
    }
    unread.skip(source, header.length as usize - kept)
}

/// Refuses the file behind so many records.
fn refuse(out: &mut Vec<u8>, number: u32, code: Code) -> Result<Next, Stop>
    requires { number ≤ 1000000000 }
    ensures answer { IfOk result (λ next. next ≡ Next.Refused (number + 1) code) }
    ensures line { OnOk result (out.new.items ≡ out.old.items ++ refused_text (number + 1) code) }
    ensures cause { result ≢ Err Stop.ReadFault }
{
    push_refused(out, number + 1, code)?;
    Ok(Next::Refused(number + 1, code))
}
