//! Laws without a step.

ghost use Rattle.std.specs.Prelude.{◌≡◌, [], ◌∷◌, Ok, Err, codes};
ghost use Rattle.macro_parse.specs.Answers.{macro_of};
ghost use Rattle.macro_eval.specs.declared.stop.MacroStop.TheVariants.{Fault};
ghost use Rattle.macro_eval.specs.declared.stop.FaultKind.TheVariants.{DivZero};
ghost use Rattle.macro_eval.specs.Runs.{Ran, run_of};
ghost use Rattle.macro_eval.specs.Examples.{to_all, shown_to_all, hit, by_zero, decided_by_the_left, remainder_below_zero, whispered_rounds};

/// Worked examples: what some texts spell.
#[tactic(auto, using(crate::proofs::Examples::hit_is_read, crate::proofs::Examples::by_zero_is_read, crate::proofs::Examples::decided_by_the_left_is_read, crate::proofs::Examples::remainder_below_zero_is_read, crate::proofs::Examples::whispered_rounds_is_read))]
pub fn examples_read()
    ensures hit { macro_of (codes "[h: x = 1d20][g: x] hit [s: x]") ≡ Ok hit }
    ensures by_zero { macro_of (codes "[r: 1 / 0]") ≡ Ok (shown_to_all by_zero) }
    ensures decided_by_the_left { macro_of (codes "[r: 0 && 1 / 0]") ≡ Ok (shown_to_all decided_by_the_left) }
    ensures remainder_below_zero { macro_of (codes "[r: -7 % 3]") ≡ Ok (shown_to_all remainder_below_zero) }
    ensures whispered_rounds { macro_of (codes "[w(2),count(3): count + 1]") ≡ Ok whispered_rounds }
{}

/// Worked examples: what these macros of seat 1 show each of three seats. The word 2917185654 shows 14 as a die of twenty sides.
#[tactic(auto, using(crate::proofs::Examples::hit_shows, crate::proofs::Examples::by_zero_stops, crate::proofs::Examples::left_decides, crate::proofs::Examples::remainder_has_the_sign_of_the_dividend, crate::proofs::Examples::one_seat_is_whispered_to))]
pub fn examples_run()
    ensures hit { run_of to_all (λ k. 2917185654) hit ≡ Ok (record {
      texts = codes "14 hit " ∷
          (codes " hit 14" ∷ (codes " hit " ∷ []));
      intents = [];
      used = 1;
    }) }
    ensures by_zero { run_of to_all (λ k. 0) (shown_to_all by_zero) ≡ Err (Fault DivZero 6) }
    ensures decided_by_the_left { run_of to_all (λ k. 0) (shown_to_all decided_by_the_left)
        ≡ Ok (record { texts = codes "0" ∷ (codes "0" ∷ (codes "0" ∷ [])); intents = []; used = 0 }) }
    ensures remainder_below_zero { run_of to_all (λ k. 0) (shown_to_all remainder_below_zero)
        ≡ Ok (record { texts = codes "-1" ∷ (codes "-1" ∷ (codes "-1" ∷ [])); intents = []; used = 0 }) }
    ensures whispered_rounds { run_of to_all (λ k. 0) whispered_rounds
        ≡ Ok (record { texts = [] ∷ ([] ∷ (codes "1, 2, 3" ∷ [])); intents = []; used = 0 }) }
{}
