//! Ids of operations: a UUID and a count.

ghost use Rattle.std.specs.Prelude.{◌≡◌, ◌<◌, ◌++◌, ℕ, IsTrue, IfSome, IsSome, OnOk, OnErr, ◌↔◌, is_some, length, All};
ghost use Rattle.std.specs.Ordering.{is_eq, is_lt};
ghost use Rattle.reg_op.specs.Ids.{Id, IsId, id_cmp};
ghost use Rattle.reg_op.specs.Text.{printed, Spells};

use crate::count::count_of;
use itoa::Buffer;
use std::alloc::AllocError;
use std::fmt;
use std::marker::Model;
use uuid::Uuid;

/// The replica that numbered an operation, and the number. Ids are ordered by the UUID's bytes, then the count. An id
/// prints as `write_to` spells it.
#[derive(Clone, Copy, Debug, PartialEq, Eq, PartialOrd, Ord)]
pub struct OpId {
    replica: Uuid,
    count: u32,
}

impl Model for OpId {
    ghost use Rattle.reg_op.specs.Ids.{Id, IsId, id_code};

    ghost Value = { Id };

    ghost coded = { id_code };

    ghost view = { λ i. record { replica = i.replica; count = i.count } };

    ghost invariant = { λ i. IsId (record { replica = i.replica; count = i.count }) };

    ghost inverse = { λ i. record { replica = i.replica; count = i.count } };
}

impl OpId {
    /// No id has the count 0.
    pub fn new(replica: Uuid, count: u32) -> Option<OpId>
        ensures some { IsSome result ↔ (0 < count) }
        ensures value { IfSome result (λ id. id ≡ record { replica = replica; count = count }) }
    {
        if count == 0 {
            return None;
        }
        bytes_fit(replica.as_bytes());
        Some(OpId { replica, count })
    }

    /// The UUID of the replica that made the operation (RFC 9562).
    pub fn replica(&self) -> Uuid
        ensures value { result ≡ self.now.replica }
        ensures id { IsId self.now }
    {
        self.replica
    }

    /// Its number among the operations of the replica, from 1.
    pub fn count(&self) -> u32
        ensures value { result ≡ self.now.count }
        ensures id { IsId self.now }
    {
        self.count
    }

    /// Reads an id without allocating.
    pub fn parse(text: &[u8]) -> Option<OpId>
        ensures found { IfSome result (λ id. Spells text.now id) }
        ensures only { (id : Id) → Spells text.now id → result ≡ Some id }
    {
        if text.len() < 36 {
            return None;
        }
        let (front, back) = text.split_at(36);
        let Ok(replica) = Uuid::try_parse_ascii(front) else {
            return None;
        };
        let Some(count) = count_of(back) else {
            return None;
        };
        OpId::new(replica, count)
    }

    /// Whether the text is that of an id.
    pub fn is_id(text: &[u8]) -> bool
        ensures { IsTrue result ↔ ((id : Id) × Spells text.now id) }
    {
        OpId::parse(text).is_some()
    }

    /// Appends the printed form, which reads as the same id.
    pub fn write_to(&self, out: &mut Vec<u8>) -> Result<(), AllocError>
        ensures ok { OnOk result (out.new.items ≡ out.old.items ++ printed self.now) }
        ensures reads { Spells (printed self.now) self.now }
        ensures err { OnErr result (out.new.items ≡ out.old.items) }
    {
        let mut buffer = Uuid::encode_buffer();
        let replica = self.replica.hyphenated().encode_lower(&mut buffer);
        let mut digits = Buffer::new();
        let count = digits.format(self.count);
        out.reserve(replica.len() + 1 + count.len())?;
        out.extend_from_slice(replica.as_bytes())?;
        out.push(b':')?;
        out.extend_from_slice(count.as_bytes())?;
        Ok(())
    }

    /// Whether this id comes first.
    pub fn is_before(&self, other: &OpId) -> bool
        ensures { result ≡ is_lt (id_cmp self.now other.now) }
    {
        self.cmp(other).is_lt()
    }

    /// Whether the ids are the same.
    pub fn is_same(&self, other: &OpId) -> bool
        ensures { result ≡ is_eq (id_cmp self.now other.now) }
    {
        self.cmp(other).is_eq()
    }
}

impl fmt::Display for OpId {
    fn fmt<W: fmt::Write>(&self, f: &mut fmt::Formatter<W>) -> fmt::Result {
        let replica = self.replica;
        let count = self.count;
        write!(f, "{replica}:{count}")
    }
}

// Each byte is below 256, which a clause cannot say of an array. This loop reads them, and is compiled away.
#[inline]
fn bytes_fit(bytes: &[u8; 16])
    ensures { (length bytes.now ≡ 16) × All (λ b. b < 256) bytes.now }
{
    'bytes: for i in 0..16 {
        let _ = bytes[i];
    }
}
