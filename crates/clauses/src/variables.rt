// The numbers of the variables: a pair of terms, a term in a set, and the spare, which is the last.
ghost use Rattle.std.specs.Prelude.{◌≡◌, ◌-◌};
ghost use Rattle.clauses.specs.Variables.{pair_count, pair_index, pair_variable, in_variable, spare_variable};

// How many pairs so many terms have.
fn pair_count(terms: u8) -> usize
    ensures { result ≡ pair_count terms }
{
    (0..terms as usize).sum()
}

// How many pairs stand before c, d: those of each term below c, then those of c.
fn pair_index(terms: u8, c: u8, d: u8) -> usize
    ensures { result ≡ pair_index terms c d }
{
    let lower: usize = (0..c).map(|i| terms.saturating_sub(i + 1) as usize).sum();
    lower + d.saturating_sub(c).saturating_sub(1) as usize
}

// The variable that says that c and d are the same, where c is below d.
pub fn pair_variable(terms: u8, c: u8, d: u8) -> usize
    ensures { result ≡ pair_variable terms 0 c d }
{
    pair_index(terms, c, d) + 1
}

// The variable that says that c is in x.
pub fn in_variable(terms: u8, sets: u8, c: u8, x: u8) -> usize
    ensures { result ≡ in_variable terms sets c x }
{
    pair_count(terms) + (c as usize * sets as usize + x as usize) + 1
}

// The spare variable, whose number is how many variables there are.
pub fn spare_variable(terms: u8, sets: u8) -> usize
    ensures { result ≡ spare_variable terms sets }
{
    pair_count(terms) + terms as usize * sets as usize + 1
}
