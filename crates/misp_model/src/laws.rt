//! Laws of the rules by which a request is decided, of the order of rows, and of manifests.

ghost use Rattle.std.specs.Prelude.{◌≡◌, ℕ, List, true, false, ◌&&◌, eqb, bytes_eq, Some, None, length, map};
ghost use Rattle.std.specs.Ordering.{nat_cmp, ordering_then, is_lt};
ghost use Rattle.std.specs.Cmp.Lexicographic.{slice_cmp};
ghost use Rattle.misp_elem.specs.declared.key.KeyForm.{KeyForm as Key};
ghost use Rattle.misp_elem.specs.declared.row.RowFields.{RowFields as Row};
ghost use Rattle.misp_elem.specs.Key.{IsKey};
ghost use Rattle.misp_elem.specs.Row.{IsRow};
ghost use Rattle.misp_elem.specs.Spelling as spelling;
ghost use Rattle.misp_model.specs.declared.ask.Ask.{Ask};
ghost use Rattle.misp_ids.specs.Same.{same_org};
ghost use Rattle.misp_elem.specs.SameKey.{same_key};
ghost use Rattle.misp_lists.specs.Order.{is_less};
ghost use Rattle.misp_model.specs.RowOrder.{spell, stands_before};
ghost use Rattle.misp_model.specs.Manifests.{pulled_manifest, said_of};
ghost use Rattle.misp_model.specs.Pulling.{pulled_events, pulled_packages};
ghost use Rattle.misp_model.specs.Machine.{event_number, name_bytes, raw_before};
ghost use Rattle.misp_model.specs.Scene.{Scene, Rule, first_rule};
ghost use Rattle.misp_model.specs.Answers.{Refused, ask_rules, is_accepted, answer, ok_answer};

/// No two keys have one spelling by numbers.
pub fn each_key_has_its_own_spelling()
    ensures spelling { (a b : Key) → spell a ≡ spell b → a ≡ b }
{}

/// The order of keys and rows by numbers is that of the bytes that spell them: a keeper that orders
/// its rows by the numbers of their events, and then by their names, tells them as the tables have
/// them.
pub fn rows_stand_in_the_order_of_their_bytes()
    ensures keys { (a b : Key) → IsKey a → IsKey b →
        is_less (spell a) (spell b) ≡ is_lt (slice_cmp nat_cmp (spelling.key a) (spelling.key b)) }
    ensures rows { (a b : Row) → IsRow a → IsRow b →
        stands_before a b
        ≡ raw_before (event_number a) (name_bytes a) (event_number b) (name_bytes b) }
    ensures same { (a b : Row) → IsRow a → IsRow b →
        (same_org a.owner b.owner && same_key a.key b.key)
        ≡ (eqb (event_number a) (event_number b) && bytes_eq (name_bytes a) (name_bytes b)) }
    ensures compared { (e f : ℕ) (m n : List ℕ) →
        raw_before e m f n ≡ is_lt (ordering_then (nat_cmp e f) (slice_cmp nat_cmp m n)) }
{}

/// The first rule that holds decides what a request is answered.
pub fn the_first_rule_decides()
    ensures accepted { (s : Scene) (a : Ask) → first_rule (ask_rules s a) ≡ None →
        is_accepted s a ≡ true }
    ensures refused { (s : Scene) (a : Ask) (r : Rule) → first_rule (ask_rules s a) ≡ Some r →
        is_accepted s a ≡ false }
    ensures answer { (s : Scene) (a : Ask) → first_rule (ask_rules s a) ≡ None →
        answer s a ≡ ok_answer s a }
    ensures refusal { (s : Scene) (a : Ask) (r : Rule) → first_rule (ask_rules s a) ≡ Some r →
        answer s a ≡ Refused r }
{}

/// A manifest says of each event that a pull lists what its packages have, and of no other event.
pub fn a_manifest_says_what_packages_have()
    ensures events { (s : Scene) →
        pulled_manifest s
        ≡ map (λ event. said_of event.0 (pulled_packages s event.0)) (pulled_events s) }
    ensures counts { (s : Scene) →
        map (λ said. (said.event, length said.parts)) (pulled_manifest s) ≡ pulled_events s }
{}
