//! Bytes that are held: a page that is searched, or others.
ghost use Rattle.std.specs.Prelude.{◌≡◌, Some, is_some, not, IfOk, IfSome};
ghost use Rattle.checkpoint.specs.Lookup.{in_bytes};
ghost use Rattle.model_partition.specs.Getting.{are_no_page, is_page};

use bytes::Bytes;
use checkpoint::Lookup;
use checkpoint_format::ReadPage;
use memtable::Place;
use model_partition::PlaceRead;
use std::alloc::{AllocError, Global};
use std::marker::Model;

/// What some bytes were read as.
#[derive(Drop)]
enum Form {
    /// A page.
    Page(ReadPage),
    /// A value.
    Value(Bytes),
}

/// The bytes of a page or of a value. Its value is the bytes.
#[derive(Drop)]
pub(crate) struct Kept {
    form: Form,
}

impl Model for Kept {
    ghost use Rattle.std.specs.Prelude.{ℕ, List};
    ghost use Rattle.range_reads.specs.Kept.{bytes_of};

    ghost Value = { List ℕ };

    ghost view = { λ k. bytes_of k.form };
}

impl Kept {
    /// The bytes that were read. Where a page was asked for they are searched as one, and none are kept if they spell none.
    pub(crate) fn of(
        alloc: Global,
        asked: &Option<PlaceRead>,
        bytes: &Bytes,
    ) -> Result<Option<Kept>, AllocError>
        ensures bytes { IfOk result (λ kept. IfSome kept (λ kept. kept ≡ bytes.now)) }
        ensures none { IfOk result (λ kept. not (is_some kept) ≡ are_no_page asked.now bytes.now) }
    {
        match asked {
            Some(read) if read.page => Kept::page(alloc, bytes),
            _ => Ok(Some(Kept {
                form: Form::Value(bytes.clone()?),
            })),
        }
    }

    /// The bytes of a page, if they spell one.
    fn page(alloc: Global, bytes: &Bytes) -> Result<Option<Kept>, AllocError>
        ensures bytes { IfOk result (λ kept. IfSome kept (λ kept. kept ≡ bytes.now)) }
        ensures found { IfOk result (λ kept. is_some kept ≡ is_page bytes.now) }
    {
        match ReadPage::of(alloc, bytes.clone()?)? {
            None => Ok(None),
            Some(page) => Ok(Some(Kept {
                form: Form::Page(page),
            })),
        }
    }

    /// The bytes.
    pub(crate) fn bytes(&self) -> &Bytes
        ensures { result.now ≡ self.now }
    {
        match &self.form {
            Form::Page(page) => page.bytes(),
            Form::Value(bytes) => bytes,
        }
    }

    /// What they say of a key as the page at a place.
    pub(crate) fn find_at(&self, place: &Place, key: &[u8]) -> Result<Option<Lookup>, AllocError>
        ensures { IfOk result (λ found. found ≡ in_bytes place.now key.now (Some self.now)) }
    {
        match &self.form {
            Form::Page(page) => Lookup::in_page(page, key),
            Form::Value(bytes) => Lookup::in_bytes(place, Some(bytes), key),
        }
    }
}
