//! Laws of the bytes of pages and of indexes. They do nothing when they run.
ghost use Rattle.std.specs.Prelude.{◌≡◌, ◌<◌, ◌≤◌, ℕ, true, List, length, slice_index, Some};
ghost use Rattle.std.specs.List.{AllByRecursion};
ghost use Rattle.memtable.specs.Entries.{Entries};
ghost use Rattle.checkpoint_format.specs.declared.index.Index.{Index};
ghost use Rattle.checkpoint_format.specs.Page.{IsPageEntry, is_ascending, entries_at, joined, page_bytes, pages_of};
ghost use Rattle.checkpoint_format.specs.Index as indexes;

/// Each page of a table's entries has some of them, is at most one block, and is read again. All pages one after another are
/// the entries.
pub fn pages_are_read()
    ensures read { (entries : Entries) → is_ascending entries ≡ true → AllByRecursion IsPageEntry entries
        → AllByRecursion (λ page. entries_at (page_bytes page) ≡ Some page) (pages_of entries) }
    ensures one_block { (entries : Entries) → is_ascending entries ≡ true → AllByRecursion IsPageEntry entries
        → AllByRecursion (λ page. length (page_bytes page) ≤ 65536) (pages_of entries) }
    ensures some { (entries : Entries) → AllByRecursion (λ page. 1 ≤ length page) (pages_of entries) }
    ensures joined { (entries : Entries) → joined (pages_of entries) ≡ entries }
{}

/// What bytes spell as a page is spelled by these bytes alone, ascends and is in range.
pub fn one_spelling_of_pages()
    ensures spelled { (bytes : List ℕ) (entries : Entries) → ((i : ℕ) → slice_index bytes i < 256)
        → entries_at bytes ≡ Some entries → page_bytes entries ≡ bytes }
    ensures ascending { (bytes : List ℕ) (entries : Entries) → ((i : ℕ) → slice_index bytes i < 256)
        → entries_at bytes ≡ Some entries → is_ascending entries ≡ true }
    ensures in_range { (bytes : List ℕ) (entries : Entries) → ((i : ℕ) → slice_index bytes i < 256)
        → entries_at bytes ≡ Some entries → AllByRecursion IsPageEntry entries }
{}

/// An index that is in range is read again from its text, and what bytes spell as an index is spelled by these bytes alone.
pub fn one_spelling_of_indexes()
    ensures read { (i : Index) → indexes.IsIndex i → indexes.HasPlaces i
        → indexes.index_at (indexes.index_text i) ≡ Some i }
    ensures spelled { (bytes : List ℕ) (i : Index) → ((k : ℕ) → slice_index bytes k < 256)
        → indexes.index_at bytes ≡ Some i → indexes.index_text i ≡ bytes }
{}
