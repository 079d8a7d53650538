//! What a scheme is, how it is read from words, which rules it keeps and how its figures are stored: definitions in specs/, theory in proofs/.
//! The functions here hold nothing: each asks, by its contract, for the proof of main theorems.
#![tactic(auto)]

ghost use Rattle.std.specs.Prelude.{◌≡◌, ℕ, ◌≤◌, Bool, true, List, [], ◌∷◌};
ghost use Rattle.model.specs.Checking.{Check, FirstBroken, Keeps};
ghost use Rattle.model.specs.Conditions.{Last, First};
ghost use Rattle.model.specs.Examples.{house_sections, fork_tables};
ghost use Rattle.model.specs.Fork.{fork};
ghost use Rattle.model.specs.Formed.{Formed, Limited};
ghost use Rattle.model.specs.House.{house, house_words};
ghost use Rattle.model.specs.Lawful.{Lawful};
ghost use Rattle.model.specs.Lists.{Has};
ghost use Rattle.model.specs.Loose.{Mark, Loose};
ghost use Rattle.model.specs.Plan.{Letter, C, S, K, Lettered, Planned};
ghost use Rattle.model.specs.Scheme.{Attribute, Step, Production, Scheme};
ghost use Rattle.model.specs.Sequences.{section, uses, defines};
ghost use Rattle.model.specs.Spans.{own, last_section, first_section};
ghost use Rattle.model.specs.Tables.{all_sections, tables, widest};
ghost use Rattle.model.specs.Words.{read, scheme, words_of};

/// Reading gives a scheme in form, within the limits, and writing it gives the words back.
pub fn reading_stands() -> u8
    ensures formed { (ws : List ℕ) (s : Scheme) → read ws ≡ scheme s → Formed s }
    ensures limited { (ws : List ℕ) (s : Scheme) → read ws ≡ scheme s → Limited s }
    ensures written { (ws : List ℕ) (s : Scheme) → read ws ≡ scheme s → words_of s ≡ ws }
{
    0
}

/// The words of the house scheme say the house scheme, and are what it is written in.
pub fn house_stands() -> u8
    ensures said { read house_words ≡ scheme house }
    ensures written { words_of house ≡ house_words }
{
    0
}

/// What is known of a scheme up to truncation, as a ghost field keeps it, is known.
pub fn truncation_stands() -> u8
    ensures lawful { (s : Scheme) → ∥ Lawful s ∥₁ → Lawful s }
    ensures formed { (s : Scheme) → ∥ Formed s ∥₁ → Formed s }
    ensures limited { (s : Scheme) → ∥ Limited s ∥₁ → Limited s }
{
    0
}

/// A scheme is lawful exactly where it keeps every rule. A lawful scheme has no first broken rule, and no scheme has two.
pub fn verdict_stands() -> u8
    ensures once { (s : Scheme) (c d : Check) → FirstBroken s c → FirstBroken s d → c ≡ d }
    ensures unbroken { (s : Scheme) (c : Check) → Lawful s → FirstBroken s c → ⊥ }
    ensures kept { (s : Scheme) → Lawful s → (c : Check) → Keeps s c }
    ensures lawful { (s : Scheme) → ((c : Check) → Keeps s c) → Lawful s }
{
    0
}

/// Every attribute has exactly one letter, so a scheme has exactly one row of letters. No letter stands for want of loose walks: every section of a lawful scheme
/// has one.
pub fn letters_stand() -> u8
    ensures once { (s : Scheme) → Formed s → (a : ℕ) → (l : Letter) × Lettered s a l × ((k : Letter) → Lettered s a k → k ≡ l) }
    ensures one { (s : Scheme) → Formed s → (ls ks : List Letter) → Planned s ls → Planned s ks → ls ≡ ks }
    ensures walked { (s : Scheme) → Lawful s → Formed s → (members : ℕ → Bool) (x v i : ℕ) → Has s.visits x v → 1 ≤ i → i ≤ v → (ms : List Mark) × Loose s members x i ms }
{
    0
}

/// The letters of the worked schemes.
pub fn plans_stand() -> u8
    ensures housed { Planned house (K ∷ (C ∷ (C ∷ []))) }
    ensures forked { Planned fork (K ∷ (S ∷ [])) }
{
    0
}

/// The last section that reads an attribute is the greatest of those that do, and the first that gives it its value the least. In a lawful scheme an attribute
/// of the left symbol is read in the section of its visit or later, and given its value in that section or earlier.
pub fn sections_stand() -> u8
    ensures last { (s : Scheme) (x a j : ℕ) → Last s x a j (last_section x a j s.productions) }
    ensures first { (s : Scheme) (x a j : ℕ) → First s x a j (first_section x a j s.productions) }
    ensures used { (s : Scheme) → Lawful s → (a n t : ℕ) (b : Attribute) (p : Production) (st : Step) → Has s.attributes a b → Has s.productions n p → Has p.steps t st → uses p st (own a) ≡ true → b.visit ≤ section p t }
    ensures evaluated { (s : Scheme) → Lawful s → Formed s → (a n t : ℕ) (b : Attribute) (p : Production) (st : Step) → Has s.attributes a b → Has s.productions n p → Has p.steps t st → defines p st (own a) ≡ true → section p t ≤ b.visit }
{
    0
}

/// The sections and the tables of the worked schemes.
pub fn tables_stand() -> u8
    ensures sections { all_sections house ≡ house_sections }
    ensures tabled { tables fork (K ∷ (S ∷ [])) ≡ fork_tables }
    ensures wide { widest fork (K ∷ (S ∷ [])) ≡ 2 }
{
    0
}
