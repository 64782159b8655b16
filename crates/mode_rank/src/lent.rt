//! Rules lent to a search, so that the next search asks the same ones.

use ba_search::SearchRules;

/// Lent rules.
#[derive(Drop)]
pub struct LentRules<'a, R> {
    pub rules: &'a R,
}

impl<R: SearchRules> SearchRules for LentRules<'_, R> {
    ghost are_rules = { λ lent. R.are_rules lent.rules.now };

    ghost keeping = { λ lent. R.keeping lent.rules.now };

    fn restart(&self, restarts: u64) -> u64 {
        self.rules.restart(restarts)
    }

    fn keeps(&self, width: u64, age: u64) -> bool {
        self.rules.keeps(width, age)
    }
}
