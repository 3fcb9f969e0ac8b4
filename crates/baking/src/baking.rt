// `bc7 bake`: a photograph's blocks, chosen among the built-in proposals or among those of a file.
ghost use Rattle.std.specs.Prelude.{◌≡◌, ◌+◌, ◌<◌, ◌≤◌, IfOk};
ghost use Rattle.groups.specs.Cutting.{groups_across};

use crate::proposing::Proposals;
use messages::ending::say_done;
use messages::say_line;
use mistakes::failure::Failure;
use open_files::output::Output;
use photos::photo::Photo;
use proposals::baking::bake_row;
use reports::report::Report;
use reports::tally::Tally;
use row_work::buffers::{Buffers, Parts};
use row_work::progress::{RowWork, each_row};
use sizes::rows::Rows;
use std::fmt;

// A photograph that is baked with the proposals of a file or the built-in ones: the new plate, the buffers and the figures so far.
#[derive(Drop)]
struct Baking<'a, 'b> {
    photo: &'b Photo<'a>,
    proposals: &'b mut Option<Proposals<'a>>,
    out: &'b Output<'a>,
    buffers: &'b mut Buffers,
    tally: Tally,
}

impl<'a> RowWork for Baking<'a, '_> {
    type Error = Failure<'a>;

    ghost rows_of = { λ s. groups_across s.photo.now.size.height };

    ghost first = { λ s. s.tally.from };

    ghost ready = { λ s row. (s.tally.from + s.tally.rows ≡ row) × (s.tally.size.width ≡ s.photo.now.size.width) × (s.tally.size.height ≡ s.photo.now.size.height) };

    fn work_on(&mut self, rt: &HostRuntime, row: usize) -> Result<(), Failure<'a>> {
        // a variable, since a match on what lies behind two references has no rule
        let proposals = &mut *self.proposals;
        let columns = self.photo.size.columns().get();
        let Parts {
            band,
            groups,
            blocks,
            errors,
        } = self.buffers.parts(columns);
        self.photo.read_groups(row, band, groups)?;
        match proposals {
            Some(file) => file.choose_row(rt, row, groups, blocks, errors)?,
            None => bake_row(groups, blocks, errors),
        }
        self.out.write(blocks)?;
        self.tally.add_row(groups, blocks, errors);
        Ok(())
    }
}

// Bakes rows of blocks of a photograph, sees that no proposals are left behind the last row, and answers the figures.
fn bake_rows<'a>(
    rt: &HostRuntime,
    photo: &Photo<'a>,
    proposals: &mut Option<Proposals<'a>>,
    rows: Rows,
    out: &Output<'a>,
) -> Result<Report, Failure<'a>>
    requires { rows.from + rows.count ≤ groups_across photo.now.size.height }
{
    let size = photo.size;
    photo.go_to(rows.from)?;
    if let Some(file) = proposals {
        file.skip_rows(rows.from, size.columns().get())?;
    }
    let mut buffers = Buffers::new();
    let mut work = Baking {
        photo,
        proposals,
        out,
        buffers: &mut buffers,
        tally: Tally::new(size, rows.from),
    };
    each_row(rt, Some("baking"), rows, &mut work)?;
    let report = Report::new(&work.tally);
    if let Some(file) = proposals
        && rows.end() == size.rows()
    {
        file.check_end()?;
    }
    Ok(report)
}

// Opens a file of proposals, where there is one.
fn open_proposals<'a>(
    rt: &HostRuntime,
    path: Option<&'a [u8]>,
) -> Result<Option<Proposals<'a>>, Failure<'a>> {
    match path {
        Some(path) => Ok(Some(Proposals::open(rt, path)?)),
        None => Ok(None),
    }
}

// The rows of blocks that are baked: those that are given, which must be inside, or all.
fn rows_of<'a>(photo: &Photo<'a>, given: Option<Rows>) -> Result<Rows, Failure<'a>>
    ensures { IfOk result (λ rows. rows.from + rows.count ≤ groups_across photo.now.size.height) }
{
    match given {
        Some(rows) => {
            photo.check_rows(rows)?;
            Ok(rows)
        }
        None => Ok(Rows::all(photo.size)),
    }
}

// Which rows of blocks of a picture were baked.
#[derive(Clone, Copy)]
struct Baked {
    rows: Rows,
    of: usize,
}

impl fmt::Display for Baked {
    fn fmt<W: fmt::Write>(&self, f: &mut fmt::Formatter<W>) -> fmt::Result {
        write!(f, "rows {} of {}", self.rows, self.of)
    }
}

// Bakes a photograph into a plate, or the rows of blocks that are given, with the proposals of a file where there is one.
pub fn bake<'a>(
    rt: &HostRuntime,
    photo_path: &'a [u8],
    plate_path: &'a [u8],
    proposals_path: Option<&'a [u8]>,
    given: Option<Rows>,
) -> Result<(), Failure<'a>> {
    let photo = Photo::open(rt, photo_path)?;
    let rows = rows_of(&photo, given)?;
    let mut proposals = open_proposals(rt, proposals_path)?;
    let source = proposals.as_ref().and_then(|file| file.input.id());
    let out = Output::create(rt, plate_path, &[photo.input.id(), source])?;
    let baked = bake_rows(rt, &photo, &mut proposals, rows, &out);
    let report = out.settle(rt, baked)?;
    if let Some(file) = &proposals {
        say_line(rt, file.refused)?;
    }
    if given.is_some() {
        say_line(
            rt,
            Baked {
                rows,
                of: photo.size.rows(),
            },
        )?;
    }
    say_line(rt, report)?;
    say_done(rt, plate_path, "written")?;
    Ok(())
}
