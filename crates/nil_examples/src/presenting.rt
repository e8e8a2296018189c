//! Presentations of examples.

ghost use Rattle.std.specs.Prelude.{◌≡◌, ◌-◌, ◌<◌, ◌≤◌, length, slice_index_or, string_bytes, [], None, IfOk, OnOk, IsOkUnless};
ghost use Rattle.nil_pres.specs.Presented.{added, with_name};
ghost use Rattle.nil_examples.specs.Powers.{name_of, numbered, presentation};
ghost use Rattle.nil_examples.specs.Examples.{count_of, power_of, ArePowers};
ghost use Rattle.nil_examples.specs.Building.{blank, whole_row, named, with_row, with_pair};

use super::example::Example;
use super::example_fault::ExampleFault;
use nil_pres::{Builder, Memory, NameFault, Presentation, RelationFault};
use std::alloc::Global;

/// The presentation of an example.
pub(crate) fn present(alloc: Global, example: &Example) -> Result<Presentation, ExampleFault>
    requires least { 1 ≤ count_of example.now }
    requires most { count_of example.now ≤ 48 }
    requires lawful { ArePowers (count_of example.now) (power_of example.now) }
    ensures ok { IfOk result (λ p. p ≡ presentation (count_of example.now) (power_of example.now)) }
    ensures err { IsOkUnless result ExampleFault.Memory }
{
    let count = example.count();
    let mut builder = named(alloc, count)?;
    for k in 0..count {
        add_row(&mut builder, example, k + 1)?;
    }
    match builder.finish() {
        Some(presentation) => Ok(presentation),
        None => unreachable!(),
    }
}

/// So many generators, and no relation.
fn named(alloc: Global, count: u32) -> Result<Builder, ExampleFault>
    requires { count ≤ 48 }
    ensures ok { IfOk result (λ b. b ≡ named count) }
    ensures err { IsOkUnless result ExampleFault.Memory }
{
    let mut builder = Builder::new(alloc)?;
    for k in 0..count {
        add_name(alloc, &mut builder, k + 1)?;
    }
    Ok(builder)
}

/// Adds the next generator.
fn add_name(alloc: Global, builder: &mut Builder, k: u32) -> Result<(), ExampleFault>
    requires least { 1 ≤ k }
    requires most { k ≤ 48 }
    requires before { builder.old.names ≡ numbered (k - 1) }
    ensures ok { OnOk result (builder.new ≡ with_name builder.old (name_of k)) }
    ensures err { IsOkUnless result ExampleFault.Memory }
{
    let name = name_text(alloc, k)?;
    match builder.add_name(name.as_str()) {
        Ok(_) => Ok(()),
        Err(fault) => Err(name_refused(fault)),
    }
}

/// The name of a generator.
fn name_text(alloc: Global, k: u32) -> Result<String, Memory>
    ensures { IfOk result (λ s. string_bytes s ≡ name_of k) }
{
    format!(in alloc; "a{k}")
}

/// The names of an example are refused only for want of memory.
fn name_refused(fault: NameFault) -> ExampleFault
    requires { fault ≡ NameFault.Memory }
    ensures { result ≡ ExampleFault.Memory }
{
    match fault {
        NameFault::Memory => ExampleFault::Memory,
        _ => unreachable!(),
    }
}

/// Adds the relations of a generator with those before it.
fn add_row(builder: &mut Builder, example: &Example, j: u32) -> Result<(), ExampleFault>
    requires few { count_of example.now ≤ 48 }
    requires lawful { ArePowers (count_of example.now) (power_of example.now) }
    requires generators { length builder.old.names ≡ count_of example.now }
    requires rows { length builder.old.rights ≡ count_of example.now }
    requires least { 1 ≤ j }
    requires most { j ≤ count_of example.now }
    requires before { slice_index_or builder.old.rights (j - 1) [] ≡ blank j }
    ensures ok { OnOk result (builder.new ≡ with_row builder.old j
        (whole_row (power_of example.now) j)) }
    ensures err { IsOkUnless result ExampleFault.Memory }
{
    for k in 0..j - 1 {
        add_pair(builder, example, j, k + 1)?;
    }
    Ok(())
}

/// Adds the relation of a pair, where its generators don't commute.
fn add_pair(builder: &mut Builder, example: &Example, j: u32, i: u32) -> Result<(), ExampleFault>
    requires few { count_of example.now ≤ 48 }
    requires lawful { ArePowers (count_of example.now) (power_of example.now) }
    requires generators { length builder.old.names ≡ count_of example.now }
    requires least { 1 ≤ i }
    requires below { i < j }
    requires most { j ≤ count_of example.now }
    requires before { added builder.old i j ≡ None }
    ensures ok { OnOk result (builder.new ≡ with_pair builder.old i j (power_of example.now i j)) }
    ensures err { IsOkUnless result ExampleFault.Memory }
{
    let Some(power) = example.power(j, i) else {
        return Ok(());
    };
    match builder.add_relation(j, i, &[power]) {
        Ok(()) => Ok(()),
        Err(fault) => Err(relation_refused(fault)),
    }
}

/// The relations of an example are refused only for want of memory.
fn relation_refused(fault: RelationFault) -> ExampleFault
    requires { fault ≡ RelationFault.Memory }
    ensures { result ≡ ExampleFault.Memory }
{
    match fault {
        RelationFault::Memory => ExampleFault::Memory,
        _ => unreachable!(),
    }
}
