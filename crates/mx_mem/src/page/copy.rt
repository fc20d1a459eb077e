//! Copies of pages.

ghost use Rattle.std.specs.Prelude.{◌≡◌, IfOk};

use super::{Page, Sheet};
use mx_word::NoMemory;
use std::alloc::Global;

impl Page {
    /// A page with the same number and the same octas. `NoMemory` where there is no memory for it.
    pub(crate) fn copy(&self, alloc: Global) -> Result<Page, NoMemory>
        ensures { IfOk result (λ page. page ≡ self.now) }
    {
        let sheet = Sheet {
            number: self.sheet.number,
            low: self.sheet.low,
            most: self.sheet.most,
            tetras: self.sheet.tetras,
        };
        Ok(Page {
            sheet: Box::new(alloc, sheet)?,
        })
    }
}

/// Copies of pages in the same order. `NoMemory` where there is no memory for them.
pub(crate) fn copy_pages(alloc: Global, pages: &[Page]) -> Result<Vec<Page>, NoMemory>
    ensures { IfOk result (λ copies. copies.items ≡ pages.now) }
{
    let mut copies = Vec::with_capacity(alloc, pages.len())?;
    for page in pages {
        copies.push(page.copy(alloc)?)?;
    }
    Ok(copies)
}
