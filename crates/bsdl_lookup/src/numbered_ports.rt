//! Ports by their numbers, and the port bits that their indices name.
ghost use Rattle.std.specs.Prelude.{◌≡◌, Some, option_map};
ghost use Rattle.bsdl_text.specs.NumberView.{value};
ghost use Rattle.bsdl_text.specs.Numbers.{significant};
ghost use Rattle.bsdl_entity.specs.PortsView as ports_view;
ghost use Rattle.bsdl_lookup.specs.NamedPorts as spec;
ghost use Rattle.bsdl_lookup.specs.View.{numbered_port as port_view, port_index};

use crate::port_index::PortIndex;
use bsdl_entity::Range;
use bsdl_text::Digits;
use std::cmp::Ordering;

/// A port by its number, with its range.
#[derive(Debug, Clone, Copy)]
pub struct NumberedPort<'a> {
    pub number: usize,
    pub range: Option<Range<'a>>,
}

/// The port bit of a port that an index names, where the port has it.
pub(crate) fn port_index_at<'a>(
    port: NumberedPort<'_>,
    index: Option<Digits<'a>>,
) -> Option<PortIndex<'a>>
    ensures { option_map port_index result ≡ spec.port_index_at (option_map value index.entry) (port_view port.entry) }
{
    match (port.range, index) {
        (None, None) => Some(PortIndex {
            port: port.number,
            index: Digits { digits: &[] },
        }),
        (Some(range), Some(index)) => port_index_within(port.number, range, index.significant()),
        _ => None,
    }
}

fn port_index_within<'a>(
    number: usize,
    range: Range<'_>,
    index: Digits<'a>,
) -> Option<PortIndex<'a>>
    requires { significant index.digits.now ≡ index.digits.now }
    ensures { option_map port_index result ≡ spec.port_index_at (Some (value index.entry))
        (number, Some (ports_view.range range.entry)) }
{
    if range.low.compare(index) == Ordering::Greater {
        return None;
    }
    if index.compare(range.high) == Ordering::Greater {
        return None;
    }
    Some(PortIndex {
        port: number,
        index,
    })
}
