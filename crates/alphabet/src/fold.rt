// The choice to fold: with it a lowercase letter stands for its uppercase letter in the four packed alphabets.
ghost use Rattle.std.specs.Prelude.{◌≡◌};
ghost use Rattle.alphabet.specs.Symbols.{folded_entries};

// Gives each byte's place in a table the entry of what the byte stands for: with folding 26 entries are copied. A table is folded where it lies, so that who does not
// fold pays for the question alone.
pub fn fold_entries(fold: bool, table: &mut [u8; 256])
    ensures { table.new ≡ folded_entries fold table.old }
{
    if fold {
        for v in b'a'..=b'z' {
            table[usize::from(v)] = table[usize::from(v - 32)];
        }
    }
}
