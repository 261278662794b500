//! A keeper in a table of a database.

ghost use Rattle.std.specs.Prelude.{◌≡◌, ◌≤◌, OnOk, OnErr};
ghost use Rattle.moka_ends.specs.Faults.{HasRisen};
ghost use Rattle.moka_behind_uses.specs.Untold.{untold};

use moka_behind::{Failed, Keeper};
use sqlite::{Alter, Connection, Error, params};

/// The table of the pairs.
const TABLE: &str =
    "CREATE TABLE IF NOT EXISTS pair (key INTEGER PRIMARY KEY, value INTEGER NOT NULL) STRICT";

/// Keeps pairs in the table `pair` of a database. Each error of the database is a fault, and counted.
/// It tells neither its map nor its puts: no clause here says what the table holds.
#[derive(Drop)]
pub struct SqliteKeeper<S: Alter> {
    database: Connection<S>,
    faults: u64,
}

impl<S: Alter + Drop> SqliteKeeper<S> {
    /// Makes the table, unless it is there.
    pub fn new(mut database: Connection<S>) -> Result<SqliteKeeper<S>, Error> {
        database.execute_batch(TABLE)?;
        Ok(SqliteKeeper {
            database,
            faults: 0,
        })
    }

    /// Gives the database back.
    pub fn into_database(self) -> Connection<S> {
        let SqliteKeeper {
            database,
            faults: _,
        } = self;
        database
    }

    // Stores the value under the key, or deletes the key's row.
    fn store(&mut self, key: u32, value: Option<u32>) -> Result<usize, Error>
        ensures { self.new.faults ≡ self.old.faults }
    {
        match value {
            Some(value) => self.database.execute(
                "INSERT OR REPLACE INTO pair (key, value) VALUES (?1, ?2)",
                params![i64::from(key), i64::from(value)],
            ),
            None => self
                .database
                .execute("DELETE FROM pair WHERE key = ?1", params![i64::from(key)]),
        }
    }

    // Loads the value under the key, if there is a row of it.
    fn load(&mut self, key: u32) -> Result<Option<u32>, Error>
        ensures { self.new.faults ≡ self.old.faults }
    {
        let found = self.database.query_row(
            "SELECT value FROM pair WHERE key = ?1",
            params![i64::from(key)],
        );
        match found {
            Ok(row) => row.get(0).map(|value| Some(value)),
            Err(Error::QueryReturnedNoRows) => Ok(None),
            Err(error) => Err(error),
        }
    }

    // Counts an error as a fault.
    fn counted<T>(&mut self, answer: Result<T, Error>) -> Result<T, Failed>
        ensures fault { OnErr result (HasRisen self.old.faults self.new.faults) }
        ensures calm { OnOk result (self.new.faults ≡ self.old.faults) }
        ensures faults { self.old.faults ≤ self.new.faults }
    {
        match answer {
            Ok(value) => Ok(value),
            Err(_) => {
                self.faults = self.faults.saturating_add(1);
                Err(Failed)
            }
        }
    }
}

impl<S: Alter + Drop> Keeper for SqliteKeeper<S> {
    ghost told = { λ k. untold };

    ghost faults = { λ k. k.faults };

    fn put(&mut self, key: u32, value: Option<u32>) -> Result<(), Failed> {
        let stored = self.store(key, value);
        self.counted(stored)?;
        Ok(())
    }

    fn get(&mut self, key: u32) -> Result<Option<u32>, Failed> {
        let found = self.load(key);
        self.counted(found)
    }
}
