//! Boards in a real file: shown where they have changed, whole, in place of what stood there.

ghost use Rattle.std.specs.Prelude.{◌≡◌, [], IfOk};
ghost use Rattle.wh_points.specs.Points.{IsLayout};

use super::files::{holds, make_folder};
use super::tests::{grid, planners, points};
use std::alloc::Global;
use std::fs;
use std::path::Path;
use std::sync::{Arc, Wait};
use std::test::*;
use wh_board::{Publisher, Viewer};
use wh_display::{FileScreen, ShowFault, refresh};
use wh_grid::Grid;
use wh_journal::Warehouse;
use wh_planners::Patient;
use wh_points::Points;

/// The board of two agents at rest, before any entry.
const FIRST: &[u8] =
    b"wboard 1\nentries 0\nclock 0\nopen 0\nassigned 0\ncarried 0\ndone 0\n0,1 0 none\n4,1 0 none\n";

/// The warehouse with these planners.
fn opened_with(
    alloc: Global,
    map: Arc<Grid>,
    places: Points,
    crew: Vec<Patient>,
) -> Result<Warehouse<Patient>, Fail>
    requires { IsLayout map.value places }
    ensures { IfOk result (λ w. w.book.history ≡ []) }
{
    match Warehouse::open(alloc, map, places, crew, 0) {
        Ok(warehouse) => Ok(warehouse),
        Err(_) => Err("it opens".into()),
    }
}

/// The warehouse with no entry yet.
pub fn opened(alloc: Global) -> Result<Warehouse<Patient>, Fail>
    ensures { IfOk result (λ w. w.book.history ≡ []) }
{
    let map = grid(alloc)?;
    let places = points(alloc, &map)?;
    match planners(alloc, &map, [4, 4].as_slice()) {
        Ok(crew) => opened_with(alloc, map, places, crew),
        Err(fault) => {
            drop(places);
            Err(fault)
        }
    }
}

fn viewer_of<R: Wait>(
    rt: &R,
    alloc: Global,
    warehouse: &Warehouse<Patient>,
) -> Result<Viewer, Fail> {
    let mut publisher = Publisher::new(alloc, rt, warehouse.book())?;
    let place = publisher.viewer();
    drop(publisher);
    match place {
        Ok(viewer) => Ok(viewer),
        Err(_) => Err("a place".into()),
    }
}

/// Who looks at a warehouse with no entry.
fn viewer<R: Wait>(rt: &R, alloc: Global) -> Result<Viewer, Fail> {
    let warehouse = opened(alloc)?;
    let viewer = viewer_of(rt, alloc, &warehouse);
    drop(warehouse);
    viewer
}

/// A board of another run.
const EARLIER: &[u8] = b"wboard 1\nentries 9\n";

/// Whether the file of a screen keeps an earlier board where no entry is new, and else has the first one.
fn shows_what_is_new(
    rt: &HostRuntime,
    viewer: &mut Viewer,
    screen: &mut FileScreen<'_, HostRuntime>,
    path: Path<'_>,
) -> Result<bool, Fail> {
    fs::write(rt, path, EARLIER)?;
    Ok(
        refresh(rt.alloc(), viewer, screen, Some(0)) == Ok(0)
            && holds(rt, path, EARLIER)?
            && refresh(rt.alloc(), viewer, screen, None) == Ok(0)
            && holds(rt, path, FIRST)?,
    )
}

#[test]
fn a_board_is_shown_where_it_has_changed(rt: HostRuntime) -> Result<(), Fail> {
    make_folder(&rt, "survival_board")?;
    let next = String::from_str(rt.alloc(), "survival_board/next")?;
    let mut screen = FileScreen::new(&rt, "survival_board/board", next);
    let mut viewer = viewer(&rt, rt.alloc())?;
    let path = Path::new("survival_board/board");
    let is_shown = shows_what_is_new(&rt, &mut viewer, &mut screen, path);
    drop(viewer);
    drop(screen);
    assert!(rt; is_shown? && !fs::exists(&rt, Path::new("survival_board/next"))?);
    Ok(fs::remove_dir_all(&rt, "survival_board")?)
}

/// Whether what is no board stays in a file under the screen, which then is emptied.
fn is_left_alone(
    rt: &HostRuntime,
    viewer: &mut Viewer,
    screen: &mut FileScreen<'_, HostRuntime>,
    path: Path<'_>,
) -> Result<bool, Fail> {
    fs::write(rt, path, b"wlog 2\n".as_slice())?;
    let is_left = refresh(rt.alloc(), viewer, screen, None) == Err(ShowFault::Unshown)
        && holds(rt, path, b"wlog 2\n")?;
    fs::write(rt, path, b"".as_slice())?;
    Ok(is_left)
}

/// Whether that is so of both files of a screen, and it has the first board behind it.
fn shows_in_place_of_nothing(
    rt: &HostRuntime,
    viewer: &mut Viewer,
    screen: &mut FileScreen<'_, HostRuntime>,
    path: Path<'_>,
    next: Path<'_>,
) -> Result<bool, Fail> {
    Ok(
        is_left_alone(rt, viewer, screen, path)?
            && is_left_alone(rt, viewer, screen, next)?
            && refresh(rt.alloc(), viewer, screen, None) == Ok(0)
            && holds(rt, path, FIRST)?
            && !fs::exists(rt, next)?,
    )
}

#[test]
fn what_is_no_board_is_not_replaced(rt: HostRuntime) -> Result<(), Fail> {
    make_folder(&rt, "survival_taken")?;
    let next = String::from_str(rt.alloc(), "survival_taken/next")?;
    let mut screen = FileScreen::new(&rt, "survival_taken/board", next);
    let mut viewer = viewer(&rt, rt.alloc())?;
    let path = Path::new("survival_taken/board");
    let next = Path::new("survival_taken/next");
    let is_shown = shows_in_place_of_nothing(&rt, &mut viewer, &mut screen, path, next);
    drop(viewer);
    drop(screen);
    assert!(rt; is_shown?);
    Ok(fs::remove_dir_all(&rt, "survival_taken")?)
}

#[test]
fn a_board_is_not_shown_in_no_folder(rt: HostRuntime) -> Result<(), Fail> {
    make_folder(&rt, "survival_unshown")?;
    let next = String::from_str(rt.alloc(), "survival_unshown/a/next")?;
    let mut screen = FileScreen::new(&rt, "survival_unshown/a/board", next);
    let mut viewer = viewer(&rt, rt.alloc())?;
    let shown = refresh(rt.alloc(), &mut viewer, &mut screen, None);
    drop(viewer);
    drop(screen);
    assert!(rt; shown == Err(ShowFault::Unshown));
    Ok(fs::remove_dir_all(&rt, "survival_unshown")?)
}
