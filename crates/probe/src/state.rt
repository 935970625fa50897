// What goes from one line to the next, and which module a line's word belongs to.
use clocks::refusal::Refusal;
use graph::EventGraph;
use history::event_history::EventHistory;
use probe_text::answers::{Answer, Output};
use probe_text::arguments::Arguments;
use probe_text::lent::MOST_ROOM;
use probe_text::line::{Line, parse};
use room::Rows;
use room::waiting_room::WaitingRoom;

// The tables of the graph, of the history and of the waiting room.
#[derive(Drop)]
pub struct Tables<'a> {
    pub graph: probe_graph::Tables<'a>,
    pub history: probe_history::Tables<'a>,
    pub waiting: &'a mut Rows,
}

#[derive(Clone, Copy)]
pub struct State {
    // How many entries the buffers have that list calls are lent.
    room: usize,
    // R of the clock words, from a good c.replicas on.
    replicas: Option<usize>,
    graph: Option<EventGraph>,
    history: Option<EventHistory>,
    // The waiting room before the history, an empty one after each good h.new.
    waiting: WaitingRoom,
}

impl State {
    pub fn new() -> State {
        State {
            room: 512,
            replicas: None,
            graph: None,
            history: None,
            waiting: WaitingRoom::new(),
        }
    }

    // One line, taken apart and handed to the module of its word.
    pub fn answer(&mut self, text: &[u8], out: &mut Output, tables: &mut Tables) {
        self.by_word(parse(text), out, tables);
    }

    fn by_word(&mut self, line: Line, out: &mut Output, tables: &mut Tables) {
        let room = self.room;
        match line.word {
            [b'c', b'.', ..] => probe_clocks::answer(&mut self.replicas, room, line, out),
            [b'g', b'.', ..] => {
                probe_graph::answer(&mut self.graph, room, line, out, &mut tables.graph)
            }
            [b'h', b'.', ..] => self.history_word(line, out, &mut tables.history),
            [b'r', b'.', ..] => probe_room::answer(
                &mut self.history,
                &mut self.waiting,
                room,
                line,
                out,
                tables.waiting,
                &mut tables.history,
            ),
            b"room" => out.told(self.set_room(line.arguments), false),
            _ => out.told(Err(Refusal::BadLine), false),
        }
    }

    fn history_word(&mut self, line: Line, out: &mut Output, tables: &mut probe_history::Tables) {
        if probe_history::answer(&mut self.history, self.room, line, out, tables) {
            self.waiting = WaitingRoom::new();
        }
    }

    // `room N`
    fn set_room(&mut self, arguments: Arguments) -> Result<Answer, Refusal> {
        let room = arguments.all()?;
        if MOST_ROOM < room {
            return Err(Refusal::BadLine);
        }
        self.room = room;
        Ok(Answer::Nothing)
    }
}
