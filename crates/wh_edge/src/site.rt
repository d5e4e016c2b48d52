//! The map and the points, from the first two sections of the input.
ghost use Rattle.std.specs.Prelude.{◌≡◌, IfErr, IfNone, IfOk, IfSome, MatchResult, true, OnErr, OnOk, ◌<◌, ◌^◌, ◌≤◌, length};
ghost use Rattle.wh_lines.specs.Section.{Overflows, Sectioned};
ghost use Rattle.wh_points.specs.Points.{IsLayout};
ghost use Rattle.wh_edge.specs.Site.{AllParked, IsFirstNotParked, IsToldUnparked, OneSite, SectionsRead, SiteFault, SiteKept, SiteRuled, section_trouble, site_head, site_text};

use crate::trouble::Trouble;
use arrayvec::ArrayVec;
use std::alloc::{AllocError, Global};
use std::io::Read;
use wh_event::{put, put_number};
use wh_grid::{Grid, MapFault};
use wh_lines::{Lines, SectionFault};
use wh_points::{Kind, PointFault, Points};

/// The most bytes of a map section.
pub const MAP_LIMIT: usize = 33_554_432;

/// The most bytes of a points section.
pub const POINTS_LIMIT: usize = 1_048_576;

/// A warehouse's grid, the points that stand on it, and the rule of its runs.
#[derive(Drop)]
pub struct Site {
    pub grid: Grid,
    pub points: Points,
    /// Whether a path goes on from its last stop to the agent's home.
    pub homes: bool,
}

/// The error of a section that was not read.
pub fn section_trouble(fault: SectionFault) -> Trouble
    ensures { result ≡ section_trouble fault }
{
    match fault {
        SectionFault::Broken => Trouble::Broken,
        SectionFault::Endless => Trouble::Endless,
        SectionFault::TooLong => Trouble::SectionTooLong,
        SectionFault::NoMemory => Trouble::NoMemory,
    }
}

/// The lowest agent that starts at a station.
pub fn first_not_parked(points: &Points) -> Option<u32>
    ensures found { IfSome result (IsFirstNotParked points.now) }
    ensures none { IfNone result (AllParked points.now) }
{
    let agents = points.agents();
    for agent in 0..agents.len() {
        match points.kind(agents[agent]) {
            Kind::Parking => {}
            Kind::Station => return Some(agent as u32),
        }
    }
    None
}

/// Whether each agent starts at a parking, where paths are to end at homes; or the lowest that does not.
fn parked(points: &Points, homes: bool) -> Result<(), Trouble>
    ensures ok { OnOk result (homes ≡ true → AllParked points.now) }
    ensures fault { IfErr result (λ told. IsToldUnparked homes points.now told) }
{
    if !homes {
        return Ok(());
    }
    match first_not_parked(points) {
        Some(agent) => Err(Trouble::NotParked { agent }),
        None => Ok(()),
    }
}

/// A site, and the two sections that it was read from, as they came.
#[derive(Drop)]
struct Sections {
    site: Site,
    map: Vec<u8>,
    points: Vec<u8>,
}

/// Reads both sections, or tells the first thing that is wrong.
fn read_sections<R: Read>(
    lines: &mut Lines<R>,
    alloc: Global,
    homes: bool,
) -> Result<Sections, Trouble>
    ensures ok { IfOk result (λ s. SectionsRead homes lines.old lines.new (record { grid = s.site.grid; layout = s.site.points; homes = s.site.homes }) s.map.items s.points.items) }
    ensures layout { IfOk result (λ s. IsLayout s.site.grid s.site.points) }
    ensures agents { IfOk result (λ s. 1 ≤ length s.site.points.agents) }
    ensures fault { IfErr result (λ trouble. SiteFault homes trouble lines.old lines.new) }
{
    let map = match lines.section(alloc, MAP_LIMIT) {
        Ok(map) => map,
        Err(fault) => return Err(section_trouble(fault)),
    };
    let grid = match Grid::read(alloc, &map) {
        Ok(grid) => grid,
        Err(MapFault::NoMemory) => return Err(Trouble::NoMemory),
        Err(MapFault::At(fault)) => return Err(Trouble::Map(fault)),
    };
    let text = match lines.section(alloc, POINTS_LIMIT) {
        Ok(text) => text,
        Err(fault) => return Err(section_trouble(fault)),
    };
    let points = match Points::read(alloc, &grid, &text) {
        Ok(points) => points,
        Err(PointFault::NoMemory) => return Err(Trouble::NoMemory),
        Err(PointFault::At(fault)) => return Err(Trouble::Points(fault)),
    };
    match parked(&points, homes) {
        Ok(()) => {}
        Err(trouble) => return Err(trouble),
    }
    Ok(Sections {
        site: Site {
            grid,
            points,
            homes,
        },
        map,
        points: text,
    })
}

/// The map and the points of the next two sections, or the first thing that is wrong, in this order: the map section
/// and its reading, then the points section and its reading, then, where paths are to end at homes, the lowest agent that starts at
/// a station. A map section has at most 32 MB, a points section 1 MB.
pub fn read_site<R: Read>(lines: &mut Lines<R>, alloc: Global, homes: bool) -> Result<Site, Trouble>
    ensures ok { IfOk result (λ site. SiteRuled homes lines.old lines.new (record { grid = site.grid; layout = site.points; homes = site.homes })) }
    ensures layout { IfOk result (λ site. IsLayout site.grid site.points) }
    ensures agents { IfOk result (λ site. 1 ≤ length site.points.agents) }
    ensures fault { IfErr result (λ trouble. SiteFault homes trouble lines.old lines.new) }
{
    match read_sections(lines, alloc, homes) {
        Ok(sections) => Ok(sections.site),
        Err(trouble) => Err(trouble),
    }
}

/// The line that tells how long both sections of a site are, and the rule.
fn site_head(homes: bool, map: u64, points: u64) -> ArrayVec<u8, 64>
    ensures { result.items ≡ site_head homes map points }
{
    let mut head = ArrayVec::new();
    put_number(&mut head, b"wsite ", map);
    put_number(&mut head, b" ", points);
    if homes {
        put(&mut head, b" ends homes");
    }
    put(&mut head, b"\n");
    head
}

/// The text that keeps a site.
fn site_text(alloc: Global, homes: bool, map: &[u8], points: &[u8]) -> Result<Vec<u8>, AllocError>
    ensures { IfOk result (λ text. text.items ≡ site_text homes map.now points.now) }
{
    let mut text = Vec::new(alloc);
    text.extend_from_slice(site_head(homes, map.len() as u64, points.len() as u64).as_slice())?;
    text.extend_from_slice(map)?;
    text.extend_from_slice(points)?;
    Ok(text)
}

/// A site, and the text that keeps it.
#[derive(Drop)]
pub struct KeptSite {
    pub site: Site,
    pub text: Vec<u8>,
}

/// Reads a site as `read_site` does, and gives the text that keeps it too: both sections as they came, after a line that
/// tells how long they are, and the rule. It takes as many bytes again as the two sections.
pub fn read_kept_site<R: Read>(
    lines: &mut Lines<R>,
    alloc: Global,
    homes: bool,
) -> Result<KeptSite, Trouble>
    ensures ok { IfOk result (λ kept. SiteKept homes lines.old lines.new (record { grid = kept.site.grid; layout = kept.site.points; homes = kept.site.homes }) kept.text.items) }
    ensures layout { IfOk result (λ kept. IsLayout kept.site.grid kept.site.points) }
    ensures agents { IfOk result (λ kept. 1 ≤ length kept.site.points.agents) }
    ensures fault { IfErr result (λ trouble. SiteFault homes trouble lines.old lines.new) }
{
    let sections = match read_sections(lines, alloc, homes) {
        Ok(sections) => sections,
        Err(trouble) => return Err(trouble),
    };
    match site_text(
        alloc,
        homes,
        sections.map.as_slice(),
        sections.points.as_slice(),
    ) {
        Ok(text) => Ok(KeptSite {
            site: sections.site,
            text,
        }),
        Err(_) => Err(Trouble::NoMemory),
    }
}

/// The text that keeps a site tells both sections and the rule: it is no prefix of another's text.
pub fn site_texts_differ()
    ensures { OneSite }
{}
