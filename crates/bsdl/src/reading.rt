//! Reading a description: the device that it says, or its first refusal.
ghost use Rattle.bsdl.specs.Judging.{device_or_refusal, fault, file_says, text_says};
ghost use Rattle.bsdl.specs.View.{Tells};
ghost use Rattle.bsdl_description.specs.Describing.{◌>>?◌};
ghost use Rattle.bsdl_description.specs.View.{description, spelt};

use crate::device::device_by_key;
use crate::fault::BsdlFault;
use crate::form::{description_of, outline_of};
use crate::judge::judge_ports;
use bsdl_description::Description;
use bsdl_device::Device;
use bsdl_entity::Outline;
use std::alloc::Global;

/// The device that a text says, or its first refusal. Want of memory is B10; nothing is said of when it comes.
pub fn read(alloc: Global, text: &[u8]) -> Result<Device, BsdlFault>
    ensures { Tells result (text_says text.now) }
{
    let found = outline_of(alloc, text)?;
    read_entity(alloc, &found)
}

/// The device that an entity says, once its texts within quotes are judged.
fn read_entity(alloc: Global, entity: &Outline<'_>) -> Result<Device, BsdlFault>
    ensures { Tells result (spelt entity.now >>? file_says) }
{
    let found = description_of(alloc, entity)?;
    read_description(alloc, entity, &found)
}

/// The device that a description says, once it is judged.
fn read_description<'o>(
    alloc: Global,
    entity: &Outline<'o>,
    described: &Description<'o>,
) -> Result<Device, BsdlFault>
    ensures { Tells result (device_or_refusal (fault (description entity.now described.now))
        (description entity.now described.now)) }
{
    let keyed = judge_ports(alloc, entity, described)?;
    Ok(device_by_key(alloc, entity, described, &keyed)?)
}
