//! What sample texts say of a device, computed from the definitions.
ghost use Rattle.std.specs.Prelude.{◌≡◌};
ghost use Rattle.bsdl.specs.Judging.{text_says};
ghost use Rattle.worked_examples.specs.Texts as text;
ghost use Rattle.worked_examples.specs.Expected as expected;

/// Each sample text says what an independent reader says of it: a device, or its first refusal.
pub fn rows()
    ensures k { text_says text.k ≡ expected.k }
    ensures k_lower { text_says text.k_lower ≡ expected.k_lower }
    ensures kt { text_says text.kt ≡ expected.kt }
    ensures p { text_says text.p ≡ expected.p }
    ensures ku { text_says text.ku ≡ expected.ku }
    ensures kuc { text_says text.kuc ≡ expected.kuc }
    ensures no_clock { text_says text.no_clock ≡ expected.no_clock }
    ensures bypass_twice { text_says text.bypass_twice ≡ expected.bypass_twice }
    ensures idcode_ones { text_says text.idcode_ones ≡ expected.idcode_ones }
    ensures sample_1x { text_says text.sample_1x ≡ expected.sample_1x }
    ensures length_3 { text_says text.length_3 ≡ expected.length_3 }
    ensures capture_x1 { text_says text.capture_x1 ≡ expected.capture_x1 }
    ensures row_tms { text_says text.row_tms ≡ expected.row_tms }
    ensures capture_10 { text_says text.capture_10 ≡ expected.capture_10 }
    ensures id_0 { text_says text.id_0 ≡ expected.id_0 }
    ensures boundary_4 { text_says text.boundary_4 ≡ expected.boundary_4 }
    ensures cut_100 { text_says text.cut_100 ≡ expected.cut_100 }
    ensures hash { text_says text.hash ≡ expected.hash }
    ensures whole { text_says text.whole ≡ expected.whole }
{}
