//! A register that captures its own update part.

ghost use Rattle.std.specs.Prelude.{◌≡◌, IfOk, false, replicate};
ghost use Rattle.chip_registers.specs.Plain.{PlainValue};

use crate::{Register, WordRegister};
use chip_instructions::Mode;
use jt_bits::Bits;
use std::alloc::{AllocError, Global};
use std::marker::Model;

/// Two lists of bits of one length, for a chip without pins.
#[derive(Drop)]
pub struct Plain {
    stage: Bits,
    update: Bits,
}

impl Model for Plain {
    ghost use Rattle.std.specs.Prelude.{◌≡◌, length};
    ghost use Rattle.chip_registers.specs.Plain.{PlainValue};

    ghost Value = { PlainValue };

    ghost view = { λ p. record { stage = p.stage; update = p.update } };

    ghost invariant = { λ p. length p.update ≡ length p.stage };
}

impl Plain {
    /// `n` bits that are 0, twice. Refuses for want of memory alone.
    pub fn new(alloc: Global, n: usize) -> Result<Plain, AllocError>
        ensures { IfOk result (λ p. p ≡ record { stage = replicate n false; update = replicate n false }) }
    {
        Ok(Plain {
            stage: Bits::zeros(alloc, n)?,
            update: Bits::zeros(alloc, n)?,
        })
    }
}

impl Register for Plain {
    ghost use Rattle.std.specs.Prelude.{refl};
    ghost use Rattle.std.proofs.Common.{inr};

    ghost stage = { λ p. p.stage };

    ghost update_part = { λ p. p.update };

    ghost with_parts = { λ p s u. record { stage = s; update = u } };

    ghost captured = { λ p mode. p.update };

    ghost at_reset = { λ p. p.update };

    ghost saw = { λ p cell bit. p };

    ghost cored = { λ p cell bit. p };

    fn len(&self) -> usize {
        self.stage.len()
    }

    fn get(&self, i: usize) -> bool {
        self.stage.get(i)
    }

    fn see(&mut self, _cell: usize, _bit: bool) {
        let _ = &self.stage;
    }

    fn set_core(&mut self, _cell: usize, _bit: bool) {}

    fn capture(&mut self, _mode: Mode) {
        self.stage.copy_from(&self.update);
    }

    fn shift_in(&mut self, bit: bool) -> bool {
        self.stage.shift_in(bit)
    }

    fn word_at(&self, i: usize) -> u64 {
        self.stage.word_at(i)
    }

    fn put_run(&mut self, at: usize, bits: u64, n: usize) {
        self.stage.put_run(at, bits, n);
    }

    fn update(&mut self) {
        self.update.copy_from(&self.stage);
    }

    fn reset(&mut self) {
        let _ = &self.stage;
    }

    ghost stage_of = { λ r s u. refl };

    ghost update_of = { λ r s u. refl };

    ghost parts_twice = { λ r s u t v. refl };

    ghost parts_same = { λ r. refl };

    ghost captured_by_update = { λ r s mode. refl };

    ghost reset_by_update = { λ r s. refl };

    ghost sees_stage = { λ r cell bit. refl };

    ghost sees_update = { λ r cell bit. refl };

    ghost sees_alone = { λ r cell bit mode i apart. refl };

    ghost sees_reset = { λ r cell bit. refl };

    ghost sees_parts = { λ r cell bit s u. refl };

    ghost cores_stage = { λ r cell bit. refl };

    ghost cores_update = { λ r cell bit. refl };

    ghost cores_alone = { λ r cell bit mode i apart. refl };

    ghost cores_reset = { λ r cell bit. refl };

    ghost cores_parts = { λ r cell bit s u. refl };

    ghost captured_part = { λ r mode i. inr (λ s u e. refl) };
}

impl WordRegister for Plain {
    fn shift_word(&mut self, bits: u64, n: usize) -> u64 {
        self.stage.shift_word(bits, n)
    }
}
