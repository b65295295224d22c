//! Reading the lists and policies of a text.
ghost use Rattle.std.specs.Prelude.{◌≡◌, ◌<◌, length, is_some, IfOk, None, OnErr, OnOk, slice_index_or};
ghost use Rattle.policy_tables.specs.Meant.{IsLevel, content_of, draft_of, item_from, ReadsAll};
ghost use Rattle.policy_tables.specs.Texts.{items, list_text, meaning, nothing, outcome, peer, policy_text};
ghost use Rattle.policy_clauses.specs.Meant.{Reads, as_is};
ghost use Rattle.text_tokens.specs.Meant.{left};

use crate::{Direction, Policies, Span, Unread};
use policy_clauses::{Awaited, Names, Refusal, word};
use policy_items::{list_head, open, prefix_list};
use policy_words::{ItemWord, item_word, number_of, text_of};
use text_tokens::{Kind, Reader, Token};

impl Policies {
    /// Reads a list, behind its `list` at the offset.
    #[tactic(auto, using(crate::proofs::Filling::listing))]
    fn read_list<'a>(&mut self, unread: &mut Unread<'a>, at: usize) -> Result<(), Refusal>
        requires { IsLevel (draft_of self.old unread.old) }
        ensures read { Reads (λ _. draft_of self.new unread.new) (list_text at (draft_of self.old unread.old)) (left unread.old.reader) (left unread.new.reader) result }
        ensures level { OnOk result (IsLevel (draft_of self.new unread.new)) }
        ensures peers { unread.new.peers ≡ unread.old.peers }
    {
        if self.lists.len() >= 64 {
            return Err(Refusal::new(at, Awaited::Policy));
        }
        let name = list_head(&mut unread.reader, &unread.names)?;
        let list = prefix_list(&mut unread.reader)?;
        self.lists.push_reserved(list);
        let _ = unread.names.push(name);
        Ok(())
    }

    /// Reads a policy, behind its `from` or `to`.
    #[tactic(auto, using(crate::proofs::Filling::growing))]
    fn read_policy(&mut self, unread: &mut Unread<'_>, direction: Direction) -> Result<(), Refusal>
        requires { IsLevel (draft_of self.old unread.old) }
        ensures read { Reads (λ _. draft_of self.new unread.new) (policy_text unread.old.peers direction (draft_of self.old unread.old)) (left unread.old.reader) (left unread.new.reader) result }
        ensures level { OnOk result (IsLevel (draft_of self.new unread.new)) }
        ensures peers { unread.new.peers ≡ unread.old.peers }
    {
        let place = self.free_place(&mut unread.reader, unread.peers, direction)?;
        open(&mut unread.reader)?;
        let start = self.pool.len();
        self.pool.read(&mut unread.reader, &unread.names)?;
        let count = self.pool.len() - start;
        self.spans[place] = Some(Span { start, count });
        Ok(())
    }

    /// The place of the policy of the peer whose number is next, if the text has not named it.
    fn free_place(
        &self,
        reader: &mut Reader<'_>,
        peers: u8,
        direction: Direction,
    ) -> Result<usize, Refusal>
        ensures read { Reads as_is (peer peers direction (content_of self.now).policies) (left reader.old) (left reader.new) result }
        ensures bound { IfOk result (λ place. place < 128) }
    {
        let word = word(reader, Awaited::Peer)?;
        let refusal = Refusal::new(word.at, Awaited::Peer);
        let number = number_of(word.text.as_bytes()).ok_or(refusal)?;
        if number >= u32::from(peers) || number >= 64 {
            return Err(refusal);
        }
        let place = direction.place_of(number as u8);
        if self.is_named(place) {
            return Err(refusal);
        }
        Ok(place)
    }

    /// Whether the text has named the policy at the place.
    #[tactic(auto, using(crate::proofs::Filling::some_at, std::proofs::lemmas::Grind::common_steps))]
    fn is_named(&self, place: usize) -> bool
        requires { place < 128 }
        ensures { result ≡ is_some (slice_index_or (content_of self.now).policies place None) }
    {
        self.spans[place].is_some()
    }
}

impl Policies {
    /// Reads a list or a policy, from its first token on.
    fn read_item<'a>(&mut self, unread: &mut Unread<'a>, token: Token<'a>) -> Result<(), Refusal>
        requires { IsLevel (draft_of self.old unread.old) }
        ensures read { Reads (λ _. draft_of self.new unread.new) (item_from unread.old.peers (draft_of self.old unread.old) token.entry) (left unread.old.reader) (left unread.new.reader) result }
        ensures level { OnOk result (IsLevel (draft_of self.new unread.new)) }
        ensures peers { unread.new.peers ≡ unread.old.peers }
    {
        let refusal = Refusal::new(token.at, Awaited::Item);
        let Kind::Word(bytes) = token.kind else {
            return Err(refusal);
        };
        let text = text_of(bytes).ok_or(refusal)?;
        match item_word(text) {
            Some(ItemWord::List) => self.read_list(unread, token.at),
            Some(ItemWord::From) => self.read_policy(unread, Direction::Import),
            Some(ItemWord::To) => self.read_policy(unread, Direction::Export),
            None => Err(refusal),
        }
    }

    /// Reads lists and policies up to the end of the text.
    #[tactic(auto, using(crate::proofs::Filling::itemizing))]
    fn read_items(&mut self, unread: &mut Unread<'_>) -> Result<(), Refusal>
        requires { IsLevel (draft_of self.old unread.old) }
        ensures { ReadsAll (outcome (items 192 unread.old.peers (draft_of self.old unread.old) (left unread.old.reader))) (content_of self.new) result }
    {
        for _item in 0..192u8 {
            let token = unread.reader.next();
            if let Kind::End = token.kind {
                return Ok(());
            }
            self.read_item(unread, token)?;
        }
        let token = unread.reader.next();
        match token.kind {
            Kind::End => Ok(()),
            _ => Err(Refusal::new(token.at, Awaited::End)),
        }
    }

    /// Reads a whole text in place of what there is; after a refusal there is nothing.
    pub fn read(&mut self, peers: u8, text: &[u8]) -> Result<(), Refusal>
        ensures read { ReadsAll (meaning peers text.now) (content_of self.new) result }
        ensures refused { OnErr result (content_of self.new ≡ nothing) }
    {
        let read = self.read_text(peers, text);
        if read.is_err() {
            self.clear();
        }
        read
    }

    fn read_text(&mut self, peers: u8, text: &[u8]) -> Result<(), Refusal>
        ensures { ReadsAll (meaning peers text.now) (content_of self.new) result }
    {
        if text.len() > 65536 {
            return Err(Refusal::new(65536, Awaited::End));
        }
        self.clear();
        let mut unread = Unread {
            reader: Reader::new(text),
            names: Names::new(),
            peers,
        };
        self.read_items(&mut unread)
    }
}
