ghost use Rattle.std.specs.Prelude.{◌≡◌, ◌+◌, ◌≤◌, length};
ghost use Rattle.loader.specs.Bytes.{word_at, head_at};
ghost use Rattle.loader.specs.Kinds.{kind_number, payload_length};
ghost use Rattle.loader.specs.Records.{due_at, more_at};

use crate::faults::{BytesFault, RecordsFault};

// The head of a record: the length of its payload, and the number of its kind. It stays a number: a file may tell any.
#[derive(Clone, Copy, PartialEq, Eq, Debug)]
pub(crate) struct Head {
    pub(crate) payload: usize,
    pub(crate) kind: u16,
}

// The kinds of records.
#[derive(Clone, Copy, PartialEq, Eq, Debug)]
pub(crate) enum RecordKind {
    Head = 1,
    Task = 2,
    Transfer = 3,
    End = 4,
}

impl RecordKind {
    // The number that tells the kind in a file.
    fn number(self) -> u16
        ensures { result ≡ kind_number self }
    {
        self as u16
    }

    // The length of the payload of such a record.
    fn payload(self) -> usize
        ensures { result ≡ payload_length self }
    {
        match self {
            RecordKind::Head => 4,
            RecordKind::Task => 2,
            RecordKind::Transfer => 6,
            RecordKind::End => 0,
        }
    }
}

// The records of a file from byte `at` on.
#[derive(Clone, Copy)]
pub(crate) struct Records<'a> {
    pub(crate) bytes: &'a [u8],
    pub(crate) at: usize,
    ghost within: { at ≤ length bytes.now },
}

impl<'a> Records<'a> {
    // All records of a file.
    pub(crate) fn new(bytes: &'a [u8]) -> Records<'a>
        ensures bytes { result.bytes.now ≡ bytes.now }
        ensures at { result.at ≡ 0 }
    {
        Records { bytes, at: 0 }
    }

    // The number at byte `place`.
    pub(crate) fn number(&self, place: usize) -> u16
        requires { place + 2 ≤ length self.now.bytes.now }
        ensures { result ≡ word_at self.now.bytes.now place }
    {
        u16::from_le_bytes([self.bytes[place], self.bytes[place + 1]])
    }

    // The head of the first record.
    fn head(&self) -> Result<Head, BytesFault>
        ensures { result ≡ head_at self.now.bytes.now self.now.at }
    {
        let [l0, l1, k0, k1, rest @ ..] = &self.bytes[self.at..] else {
            return Err(BytesFault { place: self.at });
        };
        let payload = usize::from(u16::from_le_bytes([*l0, *l1]));
        if rest.len() < payload {
            return Err(BytesFault { place: self.at });
        }
        Ok(Head {
            payload,
            kind: u16::from_le_bytes([*k0, *k1]),
        })
    }

    // The byte where the payload of the first record begins. The record has the kind that is due, and
    // the length of that kind.
    pub(crate) fn due(&self, kind: RecordKind) -> Result<usize, RecordsFault>
        ensures { result
            ≡ due_at self.now.bytes.now self.now.at (kind_number kind) (payload_length kind) }
    {
        let head = self.head()?;
        if head.kind != kind.number() {
            return Err(RecordsFault::Kind(self.at));
        }
        if head.payload != kind.payload() {
            return Err(RecordsFault::Length(self.at));
        }
        Ok(self.at + 4)
    }

    // Whether the first record is a transfer, and not the last record.
    pub(crate) fn more(&self) -> Result<bool, RecordsFault>
        ensures { result ≡ more_at self.now.bytes.now self.now.at }
    {
        let kind = if self.head()?.kind == RecordKind::End.number() {
            RecordKind::End
        } else {
            RecordKind::Transfer
        };
        self.due(kind)?;
        Ok(kind == RecordKind::Transfer)
    }

    // Goes on to the record after the first one, which has this kind.
    pub(crate) fn pass(&mut self, kind: RecordKind)
        requires { self.old.at + 4 + payload_length kind ≤ length self.old.bytes.now }
        ensures bytes { self.new.bytes.now ≡ self.old.bytes.now }
        ensures at { self.new.at ≡ self.old.at + 4 + payload_length kind }
    {
        self.at += 4 + kind.payload();
    }
}
