ghost use Rattle.std.specs.Prelude.{◌≡◌, ◌≢◌, ◌↔◌, [], ℕ, List};
ghost use Rattle.md_sigs.specs.Grammar.{AreSig, AreType, AreTypes, IsSig, IsType};
ghost use Rattle.md_sigs.specs.Productions.{AreTypesAt};
ghost use Rattle.md_sigs.specs.Refusal.{IsRefused};
ghost use Rattle.md_sigs.specs.declared.element.Place.{Place as PlaceOfType};
ghost use Rattle.md_sigs.specs.declared.fault.SigFault.{SigFault as Fault};
ghost use Rattle.md_sigs.specs.declared.fault.SigFault.TheVariants.{Memory as NoMemory};
ghost use Rattle.md_sigs.specs.declared.sig.Sig.{Sig as Signature};
ghost use Rattle.ty_terms.specs.declared.ty.Ty.{Ty as Type1};

/// A blob is one signature at most.
pub fn signatures_read_one_way()
    ensures { (m : ℕ) (blob : List ℕ) (a b : Signature) → IsSig m blob a → IsSig m blob b → a ≡ b }
{}

/// A blob is one type at most.
pub fn types_read_one_way()
    ensures { (m : ℕ) (blob : List ℕ) (a b : Type1) → IsType m blob a → IsType m blob b → a ≡ b }
{}

/// What is refused, but for want of memory, is no signature and no type. So what is one is read, unless memory wants.
pub fn refusals()
    ensures signatures { (m : ℕ) (blob : List ℕ) (fault : Fault) → fault ≢ NoMemory
        → IsRefused (AreSig m) blob fault → ¬ (AreSig m blob) }
    ensures types { (m : ℕ) (blob : List ℕ) (fault : Fault) → fault ≢ NoMemory
        → IsRefused (AreType m) blob fault → ¬ (AreType m blob) }
{}

/// Bytes spell types, one for each place, exactly as the standard's productions have them (ECMA-335 II.23.2.10 to
/// II.23.2.12).
pub fn types_by_productions()
    ensures { (m : ℕ) (places : List PlaceOfType) (bytes : List ℕ) (types : List Type1) →
        AreTypes m places bytes types ↔ AreTypesAt m places bytes types [] }
{}
