//! What wave files are told by.

ghost use Rattle.std.specs.Prelude.{◌↔◌, IsTrue};
ghost use Rattle.std.specs.Io.{StartsWith};
ghost use Rattle.play_waves.specs.Fronts.{EachBeginsSo, front};

/// What each wave file begins with.
const FRONT: &[u8] = b"$timescale 1 ps $end\n$scope module board $end\n$scope module tap $end\n\
    $var wire 1 ! TCK $end\n$var wire 1 \" TMS $end\n$var wire 1 # TDI $end\n$var wire 1 $ TDO $end\n\
    $var wire 1 % TRST $end\n$var integer 32 & statement $end\n";

/// Whether the first bytes of a file are those of a wave file. 256 are enough to tell.
pub fn begins_as_waves(head: &[u8]) -> bool
    ensures told { IsTrue result ↔ StartsWith head.now front }
    ensures each { EachBeginsSo }
{
    head.starts_with(FRONT)
}
