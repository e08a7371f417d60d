//! Sectors as they are read through a chain of images.

ghost use Rattle.std.specs.Prelude.{◌≡◌, ℕ, ◌<◌, ◌≤◌, ◌+◌, ◌-◌, ◌*◌, ◌/◌, ◌%◌, ◌^◌, min, length, None, OnOk, OnErr, IfOk, IfSome};
ghost use Rattle.std.specs.Option.{option_copied};
ghost use Rattle.sm_disk.specs.Held.{IsWhole};
ghost use Rattle.sm_disk.specs.Sectors.{sector as sector_of};
ghost use Rattle.vg_volumes.specs.Stored.{stored, OnlyReads, Counts};
ghost use Rattle.vhd_image.specs.Bodies.{sector_count};
ghost use Rattle.vhd_chain.specs.Trees.{AreOrdered};
ghost use Rattle.vhd_chain.specs.Pieces.{reaching, HoldsAll, IsPiece, AreFilled};
ghost use Rattle.vhd_chain.specs.Reading.{chain_reads, AllStand, AllAreTrue, AreRead};

use crate::links::named;
use crate::rows::TreeRow;
use crate::trees::Tree;
use sm_base::{CHAIN_LIMIT, Failed, Name};
use vg_volumes::Store;
use vhd_image::Image;

/// Sectors of a disk from one on that one image holds; where there is none, they are zeros.
#[derive(Drop)]
struct Piece<'a> {
    image: Option<&'a Image>,
    sectors: u32,
}

impl Piece<'_> {
    /// So many sectors that no image holds.
    fn zeros<'a>(sectors: u32) -> Piece<'a>
        ensures image { option_copied result.image ≡ None }
        ensures sectors { result.sectors ≡ sectors }
    {
        Piece {
            image: None,
            sectors,
        }
    }
}

/// The image of this name, where it reaches past this sector.
fn image_at<'a>(rows: &'a [TreeRow], name: &Name, sector: u64) -> Option<&'a Image>
    requires order { AreOrdered rows.now }
    ensures { option_copied result ≡ reaching rows.now name.now sector }
{
    let row = named(rows, name)?;
    if sector < row.image.sectors() {
        Some(&row.image)
    } else {
        None
    }
}

/// At most so many sectors from this one on, as far as the image reaches.
fn within(image: &Image, sector: u64, most: u32) -> u32
    requires { sector < sector_count image.now }
    ensures { result ≡ min most (sector_count image.now - sector) }
{
    let rest = image.sectors() - sector;
    rest.min(most as u64) as u32
}

/// The piece from a sector on, of at most so many sectors: at each image that does not hold them it goes on to the
/// parent.
fn piece_from<'a, S: Store>(
    rows: &'a [TreeRow],
    store: &mut S,
    leaf: &Name,
    sector: u64,
    most: u32,
) -> Result<Piece<'a>, Failed>
    requires order { AreOrdered rows.now }
    requires stand { AllStand (stored S.Store store.old) rows.now }
    requires true_now { S.told → AllAreTrue (stored S.Store store.old) rows.now }
    requires some { 0 < most }
    ensures reads_only { OnlyReads S.Store store.old store.new }
    ensures cause { Counts S.Store result store.old store.new }
    ensures some { IfOk result (λ piece. (1 ≤ piece.sectors) × (piece.sectors ≤ most)) }
    ensures holds { IfOk result (λ piece. IfSome (option_copied piece.image)
        (HoldsAll S.told (stored S.Store store.old) sector piece.sectors)) }
    ensures piece { IfOk result (λ piece. S.told → IsPiece (stored S.Store store.old)
        (chain_reads (stored S.Store store.old) rows.now leaf.now) sector piece.sectors (option_copied piece.image)) }
{
    let mut next = *leaf;
    let mut sectors = most;
    for _ in 0..CHAIN_LIMIT {
        let Some(image) = image_at(rows, &next, sector) else {
            return Ok(Piece::zeros(sectors));
        };
        let run = image.run(store, sector, within(image, sector, sectors))?;
        sectors = run.sectors;
        if run.held {
            return Ok(Piece {
                image: Some(image),
                sectors,
            });
        }
        let Some(parent) = image.parent() else {
            return Ok(Piece::zeros(sectors));
        };
        next = parent;
    }
    Ok(Piece::zeros(sectors))
}

/// Reads the sectors of a piece.
fn fill<S: Store>(
    image: Option<&Image>,
    store: &mut S,
    sector: u64,
    to: &mut [u8],
) -> Result<(), Failed>
    requires whole { (0 < length to.old) × (length to.old % 512 ≡ 0) }
    requires held { IfSome (option_copied image) (HoldsAll S.told (stored S.Store store.old) sector (length to.old / 512)) }
    ensures reads_only { OnlyReads S.Store store.old store.new }
    ensures cause { Counts S.Store result store.old store.new }
    ensures filled { OnOk result (S.told → AreFilled (stored S.Store store.old) (option_copied image.entry) sector to.new) }
{
    match image {
        Some(image) => image.read_held(store, sector, to),
        None => {
            to.fill(0);
            Ok(())
        }
    }
}

/// Reads a piece into a buffer, behind so many of its sectors. It answers how many sectors are read then.
fn read_on<S: Store>(
    rows: &[TreeRow],
    store: &mut S,
    leaf: &Name,
    sector: u64,
    to: &mut [u8],
    done: usize,
) -> Result<usize, Failed>
    requires order { AreOrdered rows.now }
    requires stand { AllStand (stored S.Store store.old) rows.now }
    requires true_now { S.told → AllAreTrue (stored S.Store store.old) rows.now }
    requires whole { IsWhole sector (length to.old) (2 ^ 32) }
    requires more { 512 * done < length to.old }
    ensures reads_only { OnlyReads S.Store store.old store.new }
    ensures cause { Counts S.Store result store.old store.new }
    ensures more { IfOk result (λ next. (done < next) × (512 * next ≤ length to.new)) }
    ensures front { (k : ℕ) → k < done → sector_of to.new k ≡ sector_of to.old k }
    ensures read { IfOk result (λ next. S.told → AreRead
        (chain_reads (stored S.Store store.old) rows.now leaf.now) sector done next to.new) }
{
    let place = sector + done as u64;
    let most = (to.len() / 512 - done).min(u32::MAX as usize) as u32;
    let piece = piece_from(rows, store, leaf, place, most)?;
    let next = done + piece.sectors as usize;
    fill(piece.image, store, place, &mut to[512 * done..512 * next])?;
    Ok(next)
}

impl Tree {
    /// Reads whole sectors of the disk, at least one, from a sector on, as they are read through the chain of the image
    /// of this name: of the first image from it up that holds a sector, its bytes there. Zeros are read where none does,
    /// from an image's end on, where a parent is not there, and behind the 30th image. It takes no memory. Each run of
    /// sectors that one image holds is one read of the store, beside one of a bitmap for each VHD image that is asked.
    ///
    /// # Errors
    ///
    /// The store failed; what `to` has then is open.
    pub fn read<S: Store>(
        &self,
        store: &mut S,
        leaf: &Name,
        sector: u64,
        to: &mut [u8],
    ) -> Result<(), Failed>
        requires stand { AllStand (stored S.Store store.old) self.now.rows }
        requires true_now { S.told → AllAreTrue (stored S.Store store.old) self.now.rows }
        requires whole { IsWhole sector (length to.old) (2 ^ 32) }
        ensures reads_only { OnlyReads S.Store store.old store.new }
        ensures cause { Counts S.Store result store.old store.new }
        ensures read { OnOk result (S.told → AreRead
            (chain_reads (stored S.Store store.old) self.now.rows leaf.now) sector 0 (length to.new / 512) to.new) }
    {
        let rows = self.rows();
        let count = to.len() / 512;
        let mut done = 0;
        while done < count {
            done = read_on(rows, store, leaf, sector, to, done)?;
        }
        Ok(())
    }
}
