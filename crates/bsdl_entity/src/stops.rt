//! Where reading stops, once the texts before are judged: at the first quote of the first that says nothing.
ghost use Rattle.bsdl_values.specs.View.{unsaid};
ghost use Rattle.bsdl_entity.specs.GivenView.{first_unsaid};
ghost use Rattle.bsdl_entity.specs.Stopping.{StopsBehind};

use crate::items::Given;
use bsdl_text::Stop;
use bsdl_values::{Written, said};
use std::alloc::Global;

/// Where reading stops that would stop here behind a value.
pub(crate) fn behind_value(alloc: Global, value: &Written<'_>, stop: Stop) -> Stop
    ensures { StopsBehind (unsaid value.now) stop result }
{
    match said(alloc, value) {
        Ok(Ok(_)) => stop,
        Ok(Err(place)) => Stop::Misfit(Some(place)),
        Err(_) => Stop::Memory,
    }
}

/// Where reading stops that would stop here behind attributes.
pub(crate) fn behind_given(alloc: Global, given: &[Given<'_>], stop: Stop) -> Stop
    ensures { StopsBehind (first_unsaid given.now) stop result }
{
    for giving in given {
        match said(alloc, &giving.value) {
            Ok(Ok(_)) => {}
            Ok(Err(place)) => return Stop::Misfit(Some(place)),
            Err(_) => return Stop::Memory,
        }
    }
    stop
}
