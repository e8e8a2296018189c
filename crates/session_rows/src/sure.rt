//! Sessions over infallible implementations of the outside.

ghost use Rattle.std.specs.Prelude.{◌≡◌, ◌≤◌, ◌⊎◌, ℕ, List, Some, None, length, map};
ghost use Rattle.nil_io.specs.Files.{contents_or_empty};
ghost use Rattle.nil_pres.specs.Presented.{Presented};
ghost use Rattle.nil_pres.specs.Relations.{relations_of};
ghost use Rattle.pres_text.specs.File.{IsFile};
ghost use Rattle.hall_table.specs.Tabled.{Tabled};
ghost use Rattle.table_json.specs.Saying.{IsTableText};
ghost use Rattle.identity_check.specs.Events.{HaveEqualSides};
ghost use Rattle.hall_compile.specs.Proposals.{proposal};
ghost use Rattle.session_io.specs.Asked.{texts};
ghost use Rattle.query_session.specs.Limits.{file_limit, table_limit, query_limit};
ghost use Rattle.query_session.specs.Commands.{command_of, run, run_table, check, compile, trees, collect, example, load};
ghost use Rattle.query_session.specs.Compiling.{Compiles};
ghost use Rattle.nil_examples.specs.Places.{unitriangular};
ghost use Rattle.nil_examples.specs.Loads.{load_fault};
ghost use Rattle.tree_text.specs.Lines.{PolyOverflows};
ghost use Rattle.query_session.specs.Trees.{number_in};
ghost use Rattle.query_session.specs.Example.{fault_of};
ghost use Rattle.query_session.specs.declared.example_kind.ExampleKind.{ExampleKind};

use nil_io::{SureShelf, SureSink, SureSource};
use nil_propose::Proposer;
use query_session::{Status, Words, session};
use std::alloc::Global;

/// A session over infallible implementations answers all queries over a presentation that compiles,
/// over any presentation by a table that is accepted, or by the collector, and writes the text that is
/// asked for, with the files and the queries within their limits, or memory is wanting.
pub fn sure_session(
    alloc: Global,
    words: &Words,
    shelf: &mut SureShelf,
    queries: &mut SureSource,
    out: &mut SureSink,
    proposers: Vec<Box<dyn Proposer>>,
) -> Status
    requires few { length proposers.items ≤ 64 }
    ensures run { (p : Presented) (name : List ℕ) → command_of (texts words.now.items) ≡ Some (run name)
        → IsFile p (contents_or_empty shelf.old.files name)
        → length (contents_or_empty shelf.old.files name) ≤ file_limit
        → Compiles p (λ i. map (λ b. proposal (named b) (gives b p i)) proposers.items)
        → length queries.old.left ≤ query_limit
        → (result ≡ Status.Done) ⊎ (result ≡ Status.Memory) }
    ensures run_table { (p : Presented) (t : Tabled) (pres table : List ℕ)
        → command_of (texts words.now.items) ≡ Some (run_table pres table)
        → IsFile p (contents_or_empty shelf.old.files pres)
        → length (contents_or_empty shelf.old.files pres) ≤ file_limit
        → IsTableText (length p.names) (contents_or_empty shelf.old.files table) t
        → length (contents_or_empty shelf.old.files table) ≤ table_limit
        → HaveEqualSides (relations_of p) t → length queries.old.left ≤ query_limit
        → (result ≡ Status.Done) ⊎ (result ≡ Status.Memory) }
    ensures compiled { (p : Presented) (name : List ℕ)
        → (command_of (texts words.now.items) ≡ Some (check name))
        ⊎ (command_of (texts words.now.items) ≡ Some (compile name))
        → IsFile p (contents_or_empty shelf.old.files name)
        → length (contents_or_empty shelf.old.files name) ≤ file_limit
        → Compiles p (λ i. map (λ b. proposal (named b) (gives b p i)) proposers.items)
        → (result ≡ Status.Done) ⊎ (result ≡ Status.Memory) }
    ensures example { (kind : ExampleKind) (size : ℕ)
        → command_of (texts words.now.items) ≡ Some (example kind size)
        → fault_of kind size ≡ None → (result ≡ Status.Done) ⊎ (result ≡ Status.Memory) }
    ensures collect { (p : Presented) (name : List ℕ)
        → command_of (texts words.now.items) ≡ Some (collect name)
        → IsFile p (contents_or_empty shelf.old.files name)
        → length (contents_or_empty shelf.old.files name) ≤ file_limit
        → length queries.old.left ≤ query_limit
        → (result ≡ Status.Done) ⊎ (result ≡ Status.Memory) }
    ensures trees { (p : Presented) (pres name : List ℕ) (k : ℕ)
        → command_of (texts words.now.items) ≡ Some (trees pres name)
        → IsFile p (contents_or_empty shelf.old.files pres)
        → length (contents_or_empty shelf.old.files pres) ≤ file_limit
        → number_in p name ≡ Some k → ¬ PolyOverflows p k
        → (result ≡ Status.Done) ⊎ (result ≡ Status.Memory) }
    ensures load { (rows count seed : ℕ)
        → command_of (texts words.now.items) ≡ Some (load rows count seed)
        → load_fault rows count seed ≡ None
        → Compiles (unitriangular rows)
        (λ i. map (λ b. proposal (named b) (gives b (unitriangular rows) i)) proposers.items)
        → (result ≡ Status.Done) ⊎ (result ≡ Status.Memory) }
{
    session(alloc, words, shelf, queries, out, proposers)
}
