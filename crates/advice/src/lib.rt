// For a person who reads a refusal: a sentence that says what its number means and what to look at.
#![tactic(auto)]

ghost use Rattle.advice.specs.Advice.{advice};
ghost use Rattle.writing.specs.Writing.{Writes};

use writing::put_bytes;

// A sentence for each refusal, in order of their numbers, of which there is no 0.
const SENTENCES: [&[u8]; 15] = [
    b"",
    b"The sheet has more than 2048 bytes, and no right sheet is so long: look whether it is the right file.\n",
    b"A line is missing or has a wrong key, number of items, numeral or line end: the lines are rule=2 or none, panels=, triggers=, lag= for \
each panel, floor= and due= where there is no rule=2, after= for each trigger, then land= for each trigger or none, then last= or none, \
in this order, with no spaces, LF after every line and nothing more.\n",
    b"The number of panels or of triggers is not from 1 to 6: look at panels= and triggers=.\n",
    b"A number is outside -100000 to 100000: look at the lag=, floor=, due=, after=, land= and last= lines.\n",
    b"A due mark or a last moment is absent: the due= line needs a number for each trigger, the last= line one for each panel.\n",
    b"A panel has no lag: each lag= line needs at least one number.\n",
    b"No panel has a floor: the floor= line needs at least one number.\n",
    b"No times keep the order: rules of the after= and land= lines, with the lags to panels waited for, form a circle that adds up to \
more than 0, so that a trigger would have to come later than itself.\n",
    b"The list has more lines than there is space for: count= on standard output says how many it has.\n",
    b"There are not as many times as triggers: give one for each trigger of the sheet, in order, split by commas.\n",
    b"A time is outside -1000000000 to 1000000000 milliseconds: look at the times given.\n",
    b"The number of panels or of triggers asked for is not from 1 to 6: look at the first two numbers given.\n",
    b"The sheet asked for is longer than the space lent for it: 1133 bytes are always enough.\n",
    b"A trigger that is not spare has no lag, and under rule=2 each needs one: look at its place in the lag= lines, or take it out of the \
after= and land= lines.\n",
];

// The sentence of a refusal, 1 to 14; nothing for another number, and so it takes a number. The longest has 340 bytes.
pub fn advice_text(out: &mut [u8; 400], refusal: u8) -> usize
    ensures { Writes out.new result (advice refusal) }
{
    let place = usize::from(refusal);
    if SENTENCES.len() <= place {
        return 0;
    }
    put_bytes(out, 0, SENTENCES[place])
}
