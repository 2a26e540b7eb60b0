ghost use Rattle.std.specs.Prelude.{◌≡◌, ◌<◌, ◌≤◌, [], ◌++◌, length, take, drop, MatchResult};
ghost use Rattle.std.specs.List.{count_by};
ghost use Rattle.std.specs.Option.{is_some};
ghost use Rattle.forest.specs.Faults.{faulted};
ghost use Rattle.forest.specs.declared.fault.Reason.TheVariants.{BufferShort};
ghost use Rattle.session.specs.Tables.{program_rows};
ghost use Rattle.session.specs.Calls.{tables};
ghost use Rattle.session.specs.Tags.{marks, tag_count, with_mark, with_marks, ListsTags};

use crate::calls::allow;
use crate::program::Program;
use crate::session::Session;
use forest::{Fault, Reason};

/// All expressions and arms that a session can have, 512 and 128: no program names more tags.
const MARKS: usize = 640;

/// In most programs no more rows than that name a tag.
const FEW: usize = 32;

impl Session {
    /// Lists each tag that an element expression or an arm names, once, and answers how many there are. A list that is too short
    /// is left as it was.
    pub fn tags(&self, list: &mut [u32]) -> Result<u32, Fault>
        ensures { MatchResult result (λ n. ListsTags (tables self.now).program n list.old list.new) (λ e. (e ≡ faulted BufferShort 1 0) × (list.new ≡ list.old) × (length list.old < tag_count (tables self.now).program)) }
    {
        let program = &self.program;
        let marks = program.mark_count();
        if marks <= list.len() {
            return Ok(program.write_tags(list) as u32);
        }
        if marks <= FEW {
            program.list_few(list)
        } else {
            program.list_many(list)
        }
    }
}

impl Program {
    /// How many expressions and arms name a tag. There are no more tags than that.
    fn mark_count(&self) -> usize
        ensures value { result ≡ count_by is_some (marks (program_rows self.now)) }
        ensures few { result ≤ MARKS }
    {
        let expressions = self.expressions.as_slice().iter();
        let arms = self.arms.as_slice().iter();
        expressions.filter(|row| row.tag().is_some()).count()
            + arms.filter(|arm| arm.tag().is_some()).count()
    }

    /// Lists the tags of few rows. This function and the next hold an array each, since a call pays for all locals of its function.
    fn list_few(&self, list: &mut [u32]) -> Result<u32, Fault>
        requires { count_by is_some (marks (program_rows self.now)) ≤ FEW }
        ensures { MatchResult result (λ n. ListsTags (program_rows self.now) n list.old list.new) (λ e. (e ≡ faulted BufferShort 1 0) × (list.new ≡ list.old) × (length list.old < tag_count (program_rows self.now))) }
    {
        self.list_tags(list, &mut [0; FEW])
    }

    /// Lists the tags of any program.
    fn list_many(&self, list: &mut [u32]) -> Result<u32, Fault>
        requires { count_by is_some (marks (program_rows self.now)) ≤ MARKS }
        ensures { MatchResult result (λ n. ListsTags (program_rows self.now) n list.old list.new) (λ e. (e ≡ faulted BufferShort 1 0) × (list.new ≡ list.old) × (length list.old < tag_count (program_rows self.now))) }
    {
        self.list_tags(list, &mut [0; MARKS])
    }

    /// Lists the tags, which are written beside the list first, since it has to stay as it was if it is too short.
    fn list_tags(&self, list: &mut [u32], beside: &mut [u32]) -> Result<u32, Fault>
        requires { count_by is_some (marks (program_rows self.now)) ≤ length beside.old }
        ensures { MatchResult result (λ n. ListsTags (program_rows self.now) n list.old list.new) (λ e. (e ≡ faulted BufferShort 1 0) × (list.new ≡ list.old) × (length list.old < tag_count (program_rows self.now))) }
    {
        let count = self.write_tags(beside);
        allow(count <= list.len(), Reason::BufferShort, 0)?;
        list[..count].copy_from_slice(&beside[..count]);
        Ok(count as u32)
    }

    /// Writes the tags, each once, into a list that has room for as many as there are rows that name one.
    fn write_tags(&self, list: &mut [u32]) -> usize
        requires { count_by is_some (marks (program_rows self.now)) ≤ length list.old }
        ensures count { result ≡ tag_count (program_rows self.now) }
        ensures few { result ≤ MARKS }
        ensures there { result ≤ length list.new }
        ensures list { list.new ≡ with_marks [] (marks (program_rows self.now)) ++ drop result list.old }
    {
        let mut count = 0;
        for row in self.expressions.as_slice() {
            count = put(list, count, row.tag());
        }
        for arm in self.arms.as_slice() {
            count = put(list, count, arm.tag());
        }
        count
    }
}

/// Puts a tag behind the first `count` of the list, unless it is one of them, and answers how many they are then.
fn put(list: &mut [u32], count: usize, mark: Option<u32>) -> usize
    requires there { count ≤ length list.old }
    requires room { length (with_mark (take count list.old) mark) ≤ length list.old }
    ensures count { result ≡ length (with_mark (take count list.old) mark) }
    ensures list { list.new ≡ with_mark (take count list.old) mark ++ drop result list.old }
{
    let Some(tag) = mark else {
        return count;
    };
    if list[..count].contains(&tag) {
        return count;
    }
    list[count] = tag;
    count + 1
}
