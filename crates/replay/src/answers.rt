// The library's answers to one case, held to the listed ones.
ghost use Rattle.std.specs.Prelude.{◌≡◌, length, unwrap_or, OnOk};
ghost use Rattle.std.specs.Option.{option_map_or};
ghost use Rattle.rank_sel.specs.Outcome.{number_of};
ghost use Rattle.build_inventory.specs.Build.{BuiltAs, build_of};
ghost use Rattle.read_inventory.specs.Jump.{select_of};
ghost use Rattle.replay.specs.Cells.{blanks};
ghost use Rattle.replay.specs.Selects.{is_at, selects_alike};
ghost use Rattle.replay.specs.Tally.{NoneMeans, SameFigures};

use crate::cells::{alike, blank_from, fill};
use crate::list::{Case, Figures, Question};
use crate::tally::Tally;
use edge_index::{Parameters, Refusal, Sizes, Summary, build, check, count, plan, select, size};
use std::io;

// This and the next take an index in four parts, as `select` does.
fn is_at(
    words: &[u64],
    summary: Summary,
    inventory: &[u64],
    spill: &[u64],
    rank: u64,
    sample: u64,
) -> bool
    ensures { result ≡ is_at sample (select_of words.now summary inventory.now spill.now rank) }
{
    match select(words, summary, inventory, spill, rank) {
        Ok(p) => p == sample,
        Err(_) => false,
    }
}

// How many selects at the start answer as listed.
fn selects_alike(
    words: &[u64],
    summary: Summary,
    inventory: &[u64],
    spill: &[u64],
    selects: &[u64],
) -> usize
    ensures { result ≡ selects_alike (select_of words.now summary inventory.now spill.now) selects.now }
{
    let (pairs, _) = selects.as_chunks::<2>();
    pairs
        .iter()
        .position(|[rank, sample]| !is_at(words, summary, inventory, spill, *rank, *sample))
        .unwrap_or(pairs.len())
}

// The build into cells that are blank before. The two lent slices stay two, here and below: no proof is made of a struct of `&mut`s
// after one of them was lent.
fn build_blank(
    words: &[u64],
    question: Question,
    inventory: &mut [u64],
    spill: &mut [u64],
) -> Result<Summary, Refusal>
    ensures { BuiltAs words.now (build_of words.now question.len question.origin question.polarity question.choice (length inventory.old) (length spill.old)) (blanks (length inventory.old)) inventory.new (blanks (length spill.old)) spill.new result }
{
    fill(inventory);
    fill(spill);
    build(
        words,
        question.len,
        question.origin,
        question.polarity,
        question.choice,
        inventory,
        spill,
    )
}

impl<P: Print> Tally<'_, P> {
    // A refusal of the library's against the listed one, each 0 where there is none.
    fn compare_refusal(
        &mut self,
        what: &str,
        ours: Option<Refusal>,
        listed: Option<u64>,
    ) -> io::Result<()>
        ensures { OnOk result (NoneMeans self.old.differences self.new.differences (option_map_or number_of ours 0 ≡ unwrap_or listed 0)) }
    {
        self.compare(
            what,
            ours.map_or(0, |refusal| refusal.number()),
            listed.unwrap_or(0),
        )
    }

    fn compare_plan(&mut self, plan: Parameters, figures: Figures) -> io::Result<()>
        ensures { OnOk result (NoneMeans self.old.differences self.new.differences (SameFigures plan figures)) }
    {
        let l = plan.log2_ones_per_inventory as u64;
        let m = plan.log2_words_per_subinventory as u64;
        let s = plan.log2_ones_per_sub16 as u64;
        self.compare("N", plan.num, figures.num)?;
        self.compare("L", l, figures.log2_ones_per_inventory)?;
        self.compare("M", m, figures.log2_words_per_subinventory)?;
        self.compare("S", s, figures.log2_ones_per_sub16)
    }

    fn compare_counts(&mut self, sizes: Sizes, case: Case<'_>) -> io::Result<()>
        ensures { OnOk result (NoneMeans self.old.differences self.new.differences ((sizes.inventory ≡ length case.entry.inventory.now) × (sizes.spill ≡ length case.entry.spill.now))) }
    {
        self.compare(
            "inventory count",
            sizes.inventory,
            case.inventory.len() as u64,
        )?;
        self.compare("spill count", sizes.spill, case.spill.len() as u64)
    }

    fn replay_count(&mut self, case: Case<'_>) -> io::Result<()> {
        let question = case.question;
        match count(case.words, question.len, question.polarity) {
            Ok(num) => self.compare("count", num, case.figures.num),
            Err(refusal) => self.compare_refusal("refusal of count", Some(refusal), None),
        }
    }

    fn replay_plan(&mut self, case: Case<'_>) -> io::Result<()> {
        let question = case.question;
        match plan(case.words, question.len, question.polarity, question.choice) {
            Ok(plan) => self.compare_plan(plan, case.figures),
            Err(refusal) => self.compare_refusal("refusal of plan", Some(refusal), None),
        }
    }

    // Asked only where the Rust answers: count and plan can answer where size and build cannot.
    fn replay_figures(&mut self, case: Case<'_>) -> io::Result<()> {
        if case.refusal.is_some() {
            return Ok(());
        }
        self.replay_count(case)?;
        self.replay_plan(case)
    }

    // Size takes no origin: of a case that is turned down for it, the list does not say what size answers.
    fn replay_size(&mut self, case: Case<'_>) -> io::Result<()> {
        if case.refusal == Some(Refusal::OriginTooLarge.number()) {
            return Ok(());
        }
        let question = case.question;
        match size(case.words, question.len, question.polarity, question.choice) {
            Ok(sizes) => {
                self.compare_refusal("refusal of size", None, case.refusal)?;
                self.compare_counts(sizes, case)
            }
            Err(refusal) => { self.compare_refusal("refusal of size", Some(refusal), case.refusal) }
        }
    }

    // The built summary with the listed cells.
    fn replay_check(&mut self, case: Case<'_>, summary: Summary) -> io::Result<()> {
        let question = case.question;
        match check(
            case.words,
            question.len,
            question.origin,
            question.polarity,
            question.choice,
            summary,
            case.inventory,
            case.spill,
        ) {
            Ok(yes) => self.compare("check says yes", yes as u64, 1),
            Err(refusal) => self.compare_refusal("refusal of check", Some(refusal), None),
        }
    }

    // The listed ranks, on the listed cells.
    fn replay_selects(&mut self, case: Case<'_>, summary: Summary) -> io::Result<()> {
        let n = selects_alike(
            case.words,
            summary,
            case.inventory,
            case.spill,
            case.selects,
        );
        self.add_selects(n);
        self.compare("selects alike", n as u64, (case.selects.len() / 2) as u64)
    }

    fn replay_summary(&mut self, case: Case<'_>, summary: Summary) -> io::Result<()> {
        self.compare_plan(summary.plan, case.figures)?;
        self.compare("origin", summary.origin, case.question.origin)?;
        let sizes = Sizes {
            inventory: summary.inventory_len,
            spill: summary.spill_len,
        };
        self.compare_counts(sizes, case)?;
        self.replay_check(case, summary)?;
        self.replay_selects(case, summary)
    }

    fn replay_build(
        &mut self,
        case: Case<'_>,
        inventory: &mut [u64],
        spill: &mut [u64],
    ) -> io::Result<()> {
        match build_blank(case.words, case.question, inventory, spill) {
            Ok(summary) => {
                self.compare_refusal("refusal of build", None, case.refusal)?;
                self.replay_summary(case, summary)
            }
            Err(refusal) => {
                self.compare_refusal("refusal of build", Some(refusal), case.refusal)
            }
        }
    }

    // The first cells have to be the listed ones, and the others as they were.
    fn compare_cells(
        &mut self,
        what: &str,
        kept: &str,
        cells: &[u64],
        listed: &[u64],
    ) -> io::Result<()> {
        let n = alike(cells, listed);
        self.add_cells(n);
        self.compare(what, n as u64, listed.len() as u64)?;
        self.compare(
            kept,
            blank_from(cells, listed.len()) as u64,
            cells.len() as u64,
        )
    }

    // A case without listed cells is turned down: every lent cell has to be as it was.
    pub(crate) fn replay_case(
        &mut self,
        case: Case<'_>,
        inventory: &mut [u64],
        spill: &mut [u64],
    ) -> io::Result<()> {
        self.add_case(case.refusal.is_some());
        self.replay_figures(case)?;
        self.replay_size(case)?;
        self.replay_build(case, inventory, spill)?;
        self.compare_cells(
            "inventory cells alike",
            "inventory cells kept up to",
            inventory,
            case.inventory,
        )?;
        self.compare_cells(
            "spill cells alike",
            "spill cells kept up to",
            spill,
            case.spill,
        )
    }
}
