//! UPDATEs.
ghost use Rattle.std.specs.Prelude.{◌≡◌, [], ◌∷◌, ◌++◌, length, Some, OnOk};
ghost use Rattle.kinds.specs.Numbers.{attribute_flags, attribute_number};
ghost use Rattle.peer_messages.specs.Messages.{attribute_bytes, bytes32, prefix_bytes, sequence_bytes, size_bytes};

use crate::basics::{message, size};
use kinds::{AttributeKind, EXTENDED_LENGTH, MessageKind};
use script_words::{Address, Prefix};
use std::alloc::{AllocError, Global};

/// The parts of an UPDATE, in bytes.
#[derive(Drop)]
pub struct Update {
    withdrawn: Vec<u8>,
    announced: Vec<u8>,
    /// None where there is no path attribute.
    path: Option<Vec<u8>>,
    med: Option<u32>,
    communities: Vec<u8>,
}

impl Update {
    /// One that says nothing.
    pub fn new(heap: Global) -> Update {
        Update {
            withdrawn: Vec::new(heap),
            announced: Vec::new(heap),
            path: None,
            med: None,
            communities: Vec::new(heap),
        }
    }

    pub fn withdraw(&mut self, prefix: Prefix) -> Result<(), AllocError>
        ensures { OnOk result (self.new.withdrawn.items ≡ self.old.withdrawn.items ++ prefix_bytes prefix) }
    {
        put_prefix(&mut self.withdrawn, prefix)
    }

    pub fn announce(&mut self, prefix: Prefix) -> Result<(), AllocError>
        ensures { OnOk result (self.new.announced.items ≡ self.old.announced.items ++ prefix_bytes prefix) }
    {
        put_prefix(&mut self.announced, prefix)
    }

    /// A path attribute, empty so far.
    pub fn begin_path(&mut self, heap: Global) {
        self.path = Some(Vec::new(heap));
    }

    /// One network more on the path.
    pub fn add_asn(&mut self, asn: u32) -> Result<(), AllocError> {
        match &mut self.path {
            Some(path) => path.extend_from_slice(&asn.to_be_bytes()),
            None => Ok(()),
        }
    }

    pub fn set_med(&mut self, med: u32)
        ensures { self.new.med ≡ Some med }
    {
        self.med = Some(med);
    }

    pub fn add_community(&mut self, community: u32) -> Result<(), AllocError>
        ensures { OnOk result (self.new.communities.items ≡ self.old.communities.items ++ bytes32 community) }
    {
        self.communities.extend_from_slice(&community.to_be_bytes())
    }

    /// The message. Where no next hop is given it has no attributes.
    pub fn write(&self, heap: Global, next_hop: Option<Address>) -> Result<Vec<u8>, AllocError> {
        let mut body = Vec::new(heap);
        put_sized(&mut body, self.withdrawn.as_slice())?;
        let mut attributes = Vec::new(heap);
        if let Some(next_hop) = next_hop {
            self.put_attributes(&mut attributes, heap, next_hop)?;
        }
        put_sized(&mut body, attributes.as_slice())?;
        body.extend_from_slice(self.announced.as_slice())?;
        message(heap, u8::from(MessageKind::Update), body.as_slice())
    }

    fn put_attributes(
        &self,
        out: &mut Vec<u8>,
        heap: Global,
        next_hop: Address,
    ) -> Result<(), AllocError> {
        put_attribute(out, AttributeKind::Origin, &[0])?;
        if let Some(path) = &self.path {
            let mut value = Vec::new(heap);
            put_sequence(&mut value, path.as_slice())?;
            put_attribute(out, AttributeKind::Path, value.as_slice())?;
        }
        put_attribute(out, AttributeKind::NextHop, &next_hop.0.to_be_bytes())?;
        if let Some(med) = self.med {
            put_attribute(out, AttributeKind::Med, &med.to_be_bytes())?;
        }
        if !self.communities.is_empty() {
            put_attribute(out, AttributeKind::Communities, self.communities.as_slice())?;
        }
        Ok(())
    }
}

/// One sequence of networks; nothing where there are none. More than 255 are counted as 255.
fn put_sequence(out: &mut Vec<u8>, path: &[u8]) -> Result<(), AllocError>
    ensures { OnOk result (out.new.items ≡ out.old.items ++ sequence_bytes path.now) }
{
    if path.is_empty() {
        return Ok(());
    }
    let count = u8::try_from(path.len() / 4).unwrap_or(255);
    out.extend_from_slice(&[2, count])?;
    out.extend_from_slice(path)
}

fn put_prefix(out: &mut Vec<u8>, prefix: Prefix) -> Result<(), AllocError>
    ensures { OnOk result (out.new.items ≡ out.old.items ++ prefix_bytes prefix) }
{
    let bytes = prefix.address.0.to_be_bytes();
    let count = (usize::from(prefix.length) + 7) / 8;
    out.extend_from_slice(&[prefix.length])?;
    out.extend_from_slice(&bytes[..count.min(4)])
}

/// The length of a part in 2 bytes, and the part.
fn put_sized(out: &mut Vec<u8>, part: &[u8]) -> Result<(), AllocError>
    ensures { OnOk result (out.new.items ≡ out.old.items ++ (size_bytes (length part.now) ++ part.now)) }
{
    out.extend_from_slice(&size(part.len()).to_be_bytes())?;
    out.extend_from_slice(part)
}

fn put_attribute(out: &mut Vec<u8>, kind: AttributeKind, value: &[u8]) -> Result<(), AllocError>
    ensures { OnOk result (out.new.items ≡ out.old.items ++ attribute_bytes (attribute_flags kind) (attribute_number kind) value.now) }
{
    let flags = kind.flags();
    match u8::try_from(value.len()) {
        Ok(length) => {
            out.extend_from_slice(&[flags, u8::from(kind), length])?;
            out.extend_from_slice(value)
        }
        Err(_) => {
            out.extend_from_slice(&[flags | EXTENDED_LENGTH, u8::from(kind)])?;
            put_sized(out, value)
        }
    }
}
