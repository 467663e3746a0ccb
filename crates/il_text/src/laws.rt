ghost use Rattle.std.specs.Prelude.{◌≡◌, ℕ, true, List, [], ◌∷◌, ◌++◌, codes, map, Ok, Err};
ghost use Rattle.md_rows.specs.Fits.{held_tables};
ghost use Rattle.md_rows.specs.Tables.{TableSchema};
ghost use Rattle.md_tables.specs.declared.module.Table.{Table};
ghost use Rattle.md_tables.specs.Modules.{ModuleParts, is_module};
ghost use Rattle.il_text.specs.Assembling.{assembled};

use crate::fault::IlTextFault;

/// What a text means is a module.
pub fn texts_mean_modules()
    ensures { (text : List ℕ) (m : ModuleParts) → assembled text ≡ Ok m → is_module m.tables ≡ true }
{}

/// What small texts mean, or where they are refused.
pub fn small_texts()
    // without rows: each table is there, and is empty
    ensures empty { assembled (codes ".entry 0" ++ (10 ∷ codes ".user x" ++ (10 ∷ [])))
        ≡ Ok (record {
          entry = 0;
          user = [];
          tables = map (λ (schema : TableSchema). record { number = schema.number; rows = [] }) held_tables;
        }) }
    // spaces, an empty line and comments say nothing
    ensures dropped { assembled (codes "  .entry  7 // 8"
        ++ (10 ∷ (10 ∷ codes "//" ++ (10 ∷ codes ".user x41 " ++ (10 ∷ [])))))
        ≡ Ok (record {
          entry = 7;
          user = 0x41 ∷ [];
          tables = map (λ (schema : TableSchema). record { number = schema.number; rows = [] }) held_tables;
        }) }
    // a row can't be the first line
    ensures no_entry { assembled (codes ".row 99" ++ (10 ∷ [])) ≡ Err (IlTextFault.BadText 1 1) }
    // there is no table 99
    ensures no_table { assembled (codes ".entry 0" ++ (10 ∷ codes ".user x" ++ (10 ∷ codes ".row 99" ++ (10 ∷ []))))
        ≡ Err (IlTextFault.BadText 3 6) }
    // a line is missing, the byte 10 behind the last, and a word
    ensures no_user { assembled (codes ".entry 0" ++ (10 ∷ [])) ≡ Err (IlTextFault.BadText 2 1) }
    ensures no_end { assembled (codes ".entry 0" ++ (10 ∷ codes ".user x")) ≡ Err (IlTextFault.BadText 2 8) }
    ensures no_number { assembled (codes ".entry" ++ (10 ∷ [])) ≡ Err (IlTextFault.BadText 1 7) }
    // a leading zero
    ensures zero { assembled (codes ".entry 00" ++ (10 ∷ [])) ≡ Err (IlTextFault.BadText 1 8) }
{}
